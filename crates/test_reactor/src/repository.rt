ghost use Rattle.std.specs.Prelude.{◌≡◌};

use crate::asserts::assert_same;
use ev_base::Handle;
use handler_repo::*;
use std::test::Fail;

// An event handler that is not dropped.
struct Connection(u64);

fn number(connection: Connection) -> u64
    ensures { result ≡ connection.0 }
{
    let Connection(number) = connection;
    number
}

#[test]
fn a_handler_leaves_and_comes_back(rt: HostRuntime) -> Result<(), Fail> {
    let mut repo = Repo::new(rt.alloc());
    match repo.reserve(1) {
        Ok(()) => {}
        Err(refused) => {
            repo.close();
            return Err(refused.into());
        }
    }
    repo.put(Handle(0), Connection(7));
    let first = repo.take(Handle(0)).map_or(0, number);
    let second = repo.take(Handle(0)).map_or(0, number);
    repo.give_back(Handle(0), Connection(9));
    let third = repo.take(Handle(0)).map_or(0, number);
    repo.drop_out(Handle(0));
    let fourth = repo.take(Handle(0)).map_or(0, number);
    repo.close();
    assert_same(&rt, (first, second, third, fourth), (7, 0, 9, 0));
    Ok(())
}

#[test]
fn a_handler_leaves_its_cell_for_good(rt: HostRuntime) -> Result<(), Fail> {
    let mut repo = PlacedRepo::new(rt.alloc());
    match repo.reserve(1) {
        Ok(()) => {}
        Err(refused) => {
            repo.close();
            return Err(refused.into());
        }
    }
    repo.put(Handle(0), Connection(7));
    let Some(mut first) = repo.take(Handle(0)) else {
        unreachable!()
    };
    first.get_mut().0 += 1;
    repo.give_back(Handle(0), first);
    let Some(again) = repo.take(Handle(0)) else {
        unreachable!()
    };
    let last = number(repo.drop_out(Handle(0), again));
    repo.close();
    assert_same(&rt, last, 8);
    Ok(())
}
