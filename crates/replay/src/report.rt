// How many records were replayed and how many differ.

use std::io::Write;
use std::rt::Stdout;

#[derive(Clone, Copy, Default)]
pub(crate) struct Count {
    replayed: u64,
    differ: u64,
}

#[derive(Clone, Copy, Default)]
pub(crate) struct Tally {
    pub(crate) elementary: Count,
    pub(crate) grid: Count,
    pub(crate) tree: Count,
    pub(crate) spread: Count,
    pub(crate) notices: Count,
    pub(crate) sheet: Count,
    pub(crate) sizes: Count,
    pub(crate) table: Count,
    pub(crate) book: Count,
    unknown: u64,
}

impl Count {
    pub(crate) fn add(&mut self, same: bool) {
        self.replayed = self.replayed.wrapping_add(1);
        if !same {
            self.differ = self.differ.wrapping_add(1);
        }
    }

    fn write(self, mut out: Stdout, name: &[u8]) {
        let replayed = self.replayed;
        let differ = self.differ;
        let _ = out.write_all(name);
        let _ = writeln!(out, " {replayed} replayed, {differ} differ");
    }
}

impl Tally {
    pub(crate) fn add_unknown(&mut self) {
        self.unknown = self.unknown.wrapping_add(1);
    }

    pub(crate) fn write(self, mut out: Stdout) {
        self.elementary.write(out, b"elementary");
        self.grid.write(out, b"grid");
        self.tree.write(out, b"tree value");
        self.spread.write(out, b"spread from price");
        self.notices.write(out, b"call notices");
        self.sheet.write(out, b"closing sheet");
        self.sizes.write(out, b"sizing");
        self.table.write(out, b"spread by sigma table");
        self.book.write(out, b"book");
        let unknown = self.unknown;
        let _ = writeln!(out, "unknown {unknown}");
    }
}
