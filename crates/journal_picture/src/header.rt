//! What stands before the marks.
ghost use Rattle.std.specs.Prelude.{◌≡◌};
ghost use Rattle.sink_buffer.specs.Texts.{Puts};
ghost use Rattle.journal_picture.specs.Headers as H;

use crate::layout::Layout;
use crate::legend::{put_legend, put_style};
use crate::pieces::put_counted;
use sink_buffer::TextOut;

/// Puts the begin of the picture: its size, the style sheet and the ground.
fn put_begin<T: TextOut>(out: &mut T, width: u64, height: u64)
    ensures { Puts T.stands out.old (H.begin width height) out.new }
{
    put_counted(
        out,
        b"<svg xmlns='http://www.w3.org/2000/svg' font-family='sans-serif' \
          font-size='11' viewBox='0 0 ",
        width,
    );
    put_counted(out, b" ", height);
    put_counted(out, b"' width='", width);
    put_counted(out, b"' height='", height);
    out.put(b"'>\n");
    put_style(out);
    out.put(b"<rect width='100%' height='100%' fill='#fff'/>\n");
}

/// Puts the number of an entry above the lanes, where the entry stands.
fn put_tick<T: TextOut>(out: &mut T, layout: Layout, number: u64)
    ensures { Puts T.stands out.old (H.tick layout number) out.new }
{
    put_counted(out, b"<text class='axis' y='84' x='", layout.across(number));
    put_counted(out, b"'>", number);
    out.put(b"</text>\n");
}

/// Puts the numbers of some entries above the lanes.
fn put_axis<T: TextOut>(out: &mut T, layout: Layout)
    ensures { Puts T.stands out.old (H.axis layout) out.new }
{
    let apart = ticks_apart(layout.step);
    for tick in 0..(layout.entries / apart).saturating_add(1) {
        put_tick(out, layout, tick.saturating_mul(apart));
    }
}

/// How many entries it is from one number above the lanes to the next, by how far the entries are
/// from one another.
fn ticks_apart(step: u64) -> u64
    ensures { result ≡ H.ticks_apart step }
{
    if step >= 12 {
        10
    } else if step >= 4 {
        25
    } else {
        100
    }
}

/// Puts all that stands before the marks.
pub(crate) fn put_header<T: TextOut>(out: &mut T, layout: Layout)
    ensures { Puts T.stands out.old (H.header layout) out.new }
{
    put_begin(out, layout.width(), layout.height());
    put_legend(out);
    out.put(b"<text class='name' x='80' y='84'>entry</text>\n");
    out.put(b"<text class='name' x='80' y='119'>ms</text>\n");
    out.put(b"<text class='name' x='87' y='144'>reactor</text>\n");
    put_axis(out, layout);
}
