//! The pieces of marks.
ghost use Rattle.std.specs.Prelude.{◌++◌, codes, decimal};
ghost use Rattle.sink_buffer.specs.Texts.{Puts};
ghost use Rattle.journal_picture.specs.Pieces as P;

use log_lines::put_unsigned;
use sink_buffer::TextOut;

/// Puts a word and a number after it.
pub(crate) fn put_counted<T: TextOut>(out: &mut T, word: &[u8], number: u64)
    ensures { Puts T.stands out.old (word.now ++ decimal number) out.new }
{
    out.put(word);
    put_unsigned(out, number);
}

/// Puts a shape at a place.
pub(crate) fn put_shape<T: TextOut>(out: &mut T, x: u64, y: u64, shape: &[u8])
    ensures { Puts T.stands out.old (P.shape_text x y shape.now) out.new }
{
    put_counted(out, b"<path d='M", x);
    put_counted(out, b" ", y);
    out.put(shape);
    out.put(b"'/>");
}

/// Puts a bar from one place of a lane to another; `above` and `height` say how high it reaches.
pub(crate) fn put_bar<T: TextOut>(
    out: &mut T,
    from: u64,
    to: u64,
    y: u64,
    above: &[u8],
    height: &[u8],
)
    ensures { Puts T.stands out.old (P.bar_text from to y above.now height.now) out.new }
{
    put_counted(out, b"<path d='M", from);
    put_counted(out, b" ", y);
    put_counted(out, above, to);
    put_counted(out, height, from);
    out.put(b"z'/>");
}

/// Puts the ground of a lane from a place on, to its end.
pub(crate) fn put_ground<T: TextOut>(out: &mut T, class: &[u8], from: u64, to: u64, y: u64)
    ensures { Puts T.stands out.old (P.ground_text class.now from to y) out.new }
{
    out.put(b"<path class='");
    out.put(class);
    put_counted(out, b"' d='M", from);
    put_counted(out, b" ", y);
    put_counted(out, b"m0-9H", to);
    put_counted(out, b"v18H", from);
    out.put(b"z'/>");
}

/// Puts a line through all lanes; `width` says how wide it is.
pub(crate) fn put_line<T: TextOut>(out: &mut T, x: u64, bottom: u64, width: &[u8])
    ensures { Puts T.stands out.old (P.line_text x bottom width.now) out.new }
{
    put_counted(out, b"<path d='M", x);
    put_counted(out, b" 124V", bottom);
    out.put(width);
    out.put(b"V124z'/>");
}

/// Puts the moment at which a wait was answered, above its line and upright, so that those of waits
/// that follow each other have room.
pub(crate) fn put_moment<T: TextOut>(out: &mut T, x: u64, now: u64)
    ensures { Puts T.stands out.old (P.moment_text x now) out.new }
{
    put_counted(out, b"<text class='moment' dy='8' transform='translate(", x);
    put_counted(out, b" 121)rotate(-90)'>", now);
    out.put(b"</text>");
}

/// Puts a word and a number as the name of what stands at this place.
pub(crate) fn put_name<T: TextOut>(out: &mut T, x: u64, y: u64, word: &[u8], number: u64)
    ensures { Puts T.stands out.old (P.name_text x y word.now number) out.new }
{
    put_counted(out, b"<text class='name' dx='-3' dy='4' x='", x);
    put_counted(out, b"' y='", y);
    out.put(b"'>");
    put_counted(out, word, number);
    out.put(b"</text>");
}
