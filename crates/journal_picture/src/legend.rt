//! The style sheet and the legend.
ghost use Rattle.std.specs.Prelude.{◌++◌, codes, decimal};
ghost use Rattle.sink_buffer.specs.Texts.{Puts};
ghost use Rattle.journal_picture.specs.Legends as L;

use crate::pieces::{put_counted, put_shape};
use sink_buffer::TextOut;

/// Puts the style sheet: the colour of each class.
pub(crate) fn put_style<T: TextOut>(out: &mut T)
    ensures { Puts T.stands out.old L.style out.new }
{
    out.put(b"<style>\n");
    out.put(b".life{fill:#e8eef5}.gone{fill:#fff}.held{fill:#d9d2e3}\n");
    out.put(b".opened{fill:#2e7d32}.closed{fill:#37474f}.removed{fill:#c62828}\n");
    out.put(b".ready{fill:#1565c0}.posted{fill:#ef6c00}.stale{fill:#bcaaa4}\n");
    out.put(b".scheduled{fill:#80cbc4}.due{fill:#00695c}.cancelled{fill:#b0bec5}\n");
    out.put(b".started{fill:#90a4ae}.keep{fill:#5b8fd6}.again{fill:#35a79c}.close{fill:#d9534f}\n");
    out.put(
        b".masked{fill:#8e24aa}.suspended{fill:#5e35b1}.resumed{fill:#9575cd}.refused{fill:#c62828}\n",
    );
    out.put(b".polled{fill:#c9b458}.ended{fill:#000}.bad{fill:#e00000}\n");
    out.put(
        b"text{fill:#333}.name{text-anchor:end}.axis{fill:#888;font-size:9px}.moment{fill:#7a6a10;font-size:8px}\n",
    );
    out.put(b"</style>\n");
}

/// Puts a sample of a mark, and what it means.
fn put_sample<T: TextOut>(out: &mut T, class: &[u8], x: u64, y: u64, shape: &[u8], meaning: &[u8])
    ensures { Puts T.stands out.old (L.sample class.now x y shape.now meaning.now) out.new }
{
    out.put(b"<g class='");
    out.put(class);
    out.put(b"'>");
    put_shape(out, x, y, shape);
    put_counted(out, b"</g><text dx='16' dy='4' x='", x);
    put_counted(out, b"' y='", y);
    out.put(b"'>");
    out.put(meaning);
    out.put(b"</text>\n");
}

/// Puts the samples of what becomes of handles.
fn put_handle_samples<T: TextOut>(out: &mut T)
    ensures { Puts T.stands out.old L.handle_samples out.new }
{
    put_sample(out, b"opened", 20, 18, b"m0-7l9 7-9 7z", b"opened");
    put_sample(
        out,
        b"removed",
        130,
        18,
        b"m0-4l2-2 3 3 3-3 2 2-3 3 3 3-2 2-3-3-3 3-2-2 3-3z",
        b"removed",
    );
    put_sample(out, b"closed", 240, 18, b"m0-9h4v18h-4z", b"closed");
    put_sample(
        out,
        b"suspended",
        350,
        18,
        b"m0-6h3v12h-3zm5 0h3v12h-3z",
        b"suspended",
    );
    put_sample(out, b"resumed", 460, 18, b"m0-6l8 6-8 6z", b"resumed");
    put_sample(out, b"masked", 570, 18, b"m0-1h8v3h-8z", b"mask changed");
    put_sample(
        out,
        b"refused",
        680,
        18,
        b"m5-6l5 11h-10z",
        b"handler refused",
    );
}

/// Puts the samples of events.
fn put_event_samples<T: TextOut>(out: &mut T)
    ensures { Puts T.stands out.old L.event_samples out.new }
{
    put_sample(
        out,
        b"ready",
        20,
        40,
        b"m0 0a4 4 0 1 0 8 0a4 4 0 1 0-8 0z",
        b"report",
    );
    put_sample(
        out,
        b"posted",
        130,
        40,
        b"m0 0l5-5 5 5-5 5z",
        b"notification",
    );
    put_sample(out, b"stale", 240, 40, b"m0 0l5-5 5 5-5 5z", b"stale one");
    put_sample(out, b"scheduled", 350, 40, b"m0-4h8v8h-8z", b"timer set");
    put_sample(out, b"due", 460, 40, b"m0-4h8v8h-8z", b"timer due");
    put_sample(
        out,
        b"cancelled",
        570,
        40,
        b"m0-4h8v8h-8z",
        b"timer cancelled",
    );
    put_sample(
        out,
        b"started",
        680,
        40,
        b"m0 0h12v2h-12z",
        b"event waits for its upcall",
    );
}

/// Puts the samples of upcalls, waits and the end.
fn put_upcall_samples<T: TextOut>(out: &mut T)
    ensures { Puts T.stands out.old L.upcall_samples out.new }
{
    put_sample(out, b"keep", 20, 62, b"m0-6h12v12h-12z", b"upcall: keep");
    put_sample(out, b"again", 130, 62, b"m0-6h12v12h-12z", b"upcall: again");
    put_sample(out, b"close", 240, 62, b"m0-6h12v12h-12z", b"upcall: close");
    put_sample(
        out,
        b"polled",
        350,
        62,
        b"m3-8h1v16h-1z",
        b"wait answered (ms)",
    );
    put_sample(out, b"ended", 488, 62, b"m3-8h3v16h-3z", b"stopped");
    put_sample(
        out,
        b"bad",
        570,
        62,
        b"m3-8h3v16h-3z",
        b"first entry that may not follow",
    );
}

/// Puts the legend.
pub(crate) fn put_legend<T: TextOut>(out: &mut T)
    ensures { Puts T.stands out.old L.legend out.new }
{
    put_handle_samples(out);
    put_event_samples(out);
    put_upcall_samples(out);
}
