//! What the writers do: they make lines.
ghost use Rattle.std.specs.Prelude.{◌≡◌, ◌⊎◌, ◌∷◌, ◌++◌, [], IfOk};
ghost use Rattle.log_lines.specs.Texts.{record_line};
ghost use Rattle.cmd_pool.specs.Lines.{AddsOrKeeps, items_in};
ghost use Rattle.cmd_pool.specs.ItemLines.{AddsLinesOf};

use crate::line::Lines;
use ev_base::NoMemory;
use log_lines::put_borrowed_line;
use pool_writers::{GivenItems, Service};
use sink_buffer::GrowingText;
use std::alloc::Global;
use std::marker::Model;
use std::mem;
use std::sync::Wait;
use task_server::Item;

/// How many bytes the text of some lines has before the next ones are begun: so none of them is
/// moved often as it grows.
const FULL: usize = 1 << 20;

/// It makes the lines of items, and keeps them. Contracts see the items that it was given. Its
/// lines are those of some of these, in order, each at most once.
#[derive(Drop)]
pub(crate) struct LineMaker {
    alloc: Global,
    full: Vec<Lines>,
    lines: Lines,
    /// Memory in which each line is made.
    memory: Vec<u8>,
    /// The items that it was given.
    given: GivenItems,
}

impl Model for LineMaker {
    ghost use Rattle.std.specs.Prelude.{List, [], ◌∷◌, ◌++◌};
    ghost use Rattle.task_server.specs.declared.item.Item.{Item};
    ghost use Rattle.cmd_pool.specs.ItemLines.{AreAmong, items_of};

    ghost Value = { List Item };

    ghost view = { λ maker. maker.given };

    ghost invariant = { λ maker. AreAmong (items_of (maker.full.items ++ maker.lines ∷ []))
        maker.given };
}

impl LineMaker {
    /// One that has made no line. It takes no memory.
    pub(crate) fn new(alloc: Global) -> LineMaker
        ensures { result ≡ [] }
    {
        LineMaker {
            alloc,
            full: Vec::new(alloc),
            lines: Lines::none(alloc),
            memory: Vec::new(alloc),
            given: GivenItems::none(),
        }
    }

    /// Adds the lines that it made to these. Those for whose place there is no memory are left out.
    pub(crate) fn move_lines(self, made: &mut Vec<Lines>)
        ensures { AddsLinesOf self made.old.items made.new.items }
    {
        let LineMaker {
            full,
            lines: last,
            ..
        } = self;
        for lines in full {
            add_lines(made, lines);
        }
        add_lines(made, last);
    }

    /// Begins other lines if these are full.
    fn begin_next(&mut self)
        ensures { self.new ≡ self.old }
    {
        if self.lines.text_len() >= FULL {
            let lines = mem::replace(&mut self.lines, Lines::none(self.alloc));
            add_lines(&mut self.full, lines);
        }
    }

    /// Makes the line of an item that it is given, and keeps it.
    fn make(&mut self, item: &Item) -> Result<(), NoMemory>
        ensures { self.new ≡ self.old ++ item.now ∷ [] }
    {
        self.begin_next();
        self.given.add(item);
        add_line(self.alloc, &mut self.lines, &mut self.memory, item)
    }
}

impl Service for LineMaker {
    ghost served = { λ maker. maker };

    /// Makes the line of an item. If there is no memory for it, it is left out.
    fn serve<R: Wait>(&mut self, _rt: &R, item: Item) {
        match self.make(&item) {
            Ok(()) => {}
            Err(_) => {}
        }
    }
}

/// Makes the line of an item in this memory, and adds it to these lines.
fn add_line(
    alloc: Global,
    lines: &mut Lines,
    memory: &mut Vec<u8>,
    item: &Item,
) -> Result<(), NoMemory>
    ensures { AddsOrKeeps (items_in lines.old.text.items lines.old.lines.items) item.now
        (items_in lines.new.text.items lines.new.lines.items) }
{
    let line = line_in(mem::replace(memory, Vec::new(alloc)), item)?;
    lines.add(item, line.as_slice())?;
    *memory = line;
    Ok(())
}

/// The line of an item, made in this memory.
fn line_in(memory: Vec<u8>, item: &Item) -> Result<Vec<u8>, NoMemory>
    ensures { IfOk result (λ text. text.items ≡ record_line item.now.conn item.now.rec) }
{
    let mut memory = memory;
    memory.clear();
    let mut text = GrowingText::new(memory, usize::MAX);
    put_borrowed_line(&mut text, item.conn, item.rec.borrowed());
    text.into_bytes()
}

/// Adds lines to others. If there is no memory for their place they are left out.
fn add_lines(made: &mut Vec<Lines>, lines: Lines)
    ensures { (made.new.items ≡ made.old.items ++ lines ∷ []) ⊎ (made.new.items ≡ made.old.items) }
{
    match made.push(lines) {
        Ok(()) => {}
        Err(_) => {}
    }
}
