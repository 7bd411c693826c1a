//! What the program says of itself.

/// Which program it is, with its version, the kit that it is proved with, and a line feed.
pub const VERSION: &str = "logd 0.1.0, rattle-kit-13f\n";

/// How the program is called, with a line feed after each line.
pub const USAGE: &str = "\
usage: logd one [--ace7]
       logd serve --port P [--address A] [--control] [--ace7] [--workers N]
                  [--most N] [--idle MS] [--until N] [--timers K]
       logd aio --port P [--address A] [--control] [--until N]
       logd forward --port P [--address A] [--wait MS]
       logd pool --port P [--address A] [--control] [--ace7] [--workers N]
                 [--writers M] [--until N]
       logd replay [--workers N] [--most N] [--idle MS] [--until N] [--timers K]
                   [--grouped | --journal]
       logd gen N SEED
       logd display [--ace7]
       logd audit
       logd --help | --version
";

/// What the commands and their options do, with a line feed after each line.
pub const HELP: &str = "\
logd: a networked logging server

commands
  one       reads one connection from standard input: a line for each log record, and one that
            says how it ended
  serve     serves all connections to a port
  aio       an echo server made of asynchronous operations: a line for each connection
  forward   sends the records of standard input to a server
  pool      serves all connections to a port; threads of their own write the lines
  replay    serves the connections of a script of network events, from standard input
  gen       serves a generated script of N connections (1 to 1,000), and writes a summary
  display   writes the records of standard input as text
  audit     checks the text of a journal from standard input

options, as --name VALUE or --name=VALUE
  --port P      serve, aio, pool: the port to listen to; forward: the port to dial; 1 to 65,535
  --address A   serve, aio, pool: the IPv4 or IPv6 address to listen to; forward: the one to dial;
                127.0.0.1 if left out
  --workers N   serve, replay, pool: threads that take turns in leading, 1 to 64; 1 if left out
  --writers M   pool: threads that write, 1 to 16; 2 if left out
  --most N      serve, replay: connections at once, 1 to 4,096; 1,000 if left out
  --idle MS     serve, replay: closes a connection after MS milliseconds without input
  --until N     serve, aio, pool, replay: ends after N connections were closed or refused
  --wait MS     forward: gives up after MS milliseconds without a connection; 5,000 if left out
  --timers K    serve, replay: list, heap or wheel; list if left out
  --grouped     replay: the lines of one connection after another
  --journal     replay: the journal in place of the lines
  --control     serve, aio, pool: ends once standard input is at its end
  --ace7        one, display, serve, pool: reads records as clients of ACE 7 write them

status
  0 done                 5 a wait failed          11 the input is too long
  1 wrong words          6 memory ran out         12 a volume failed
  2 a line is bad        7 listening failed       13 the peer failed
  3 a read failed        8 a record is bad        14 connecting took too long
  4 a write failed      10 a journal is not legal
";
