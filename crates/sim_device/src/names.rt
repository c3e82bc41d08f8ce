//! The names of a disk: where each leads now, and after a power cut.
ghost use Rattle.std.specs.Prelude.{◌≡◌, ◌≢◌, ◌<◌, ◌≤◌, ℕ, [], length, None, Some, OnOk, OnErr};
ghost use Rattle.sim_device.specs.Disk.{entry_at, ChangesName, IsNext, MovesName, IsSettledOutside};

use std::alloc::{AllocError, Global};
use std::marker::Model;

/// For how many names a table makes room at first. Many runs have no more.
const AT_FIRST: usize = 4;
/// For how many names it makes room at once later. Names mostly come one after another.
const AT_ONCE: usize = 16;

/// The files that a name leads to, by number: now, and after a power cut.
#[derive(Clone, Copy, Debug)]
pub struct Entry {
    pub live: Option<usize>,
    pub lasting: Option<usize>,
}

/// What each name leads to. A name is a place in the table.
#[derive(Drop)]
pub struct Directory {
    entries: Vec<Entry>,
    // All names whose two files may differ are in `first..end`, so that a sync walks what changed and not the table.
    first: usize,
    end: usize,
}

impl Model for Directory {
    ghost use Rattle.std.specs.Prelude.{List};
    ghost use Rattle.sim_device.specs.declared.names.Entry.{Entry};

    ghost Value = { List Entry };

    ghost use Rattle.sim_device.specs.Disk.{IsSettledOutside};

    ghost view = { λ d. d.entries.items };

    ghost invariant = { λ d. IsSettledOutside d.entries.items d.first d.end };
}

/// Makes what is there last, for the names in `first..end`.
fn sync_entries(entries: &mut [Entry], first: usize, end: usize)
    requires { IsSettledOutside entries.old first end }
    ensures { (n : ℕ) → let old = entry_at entries.old n in
        entry_at entries.new n ≡ record { live = old.live; lasting = old.live } }
{
    for place in first..end {
        let entry = &mut entries[place];
        entry.lasting = entry.live;
    }
}

/// Leaves only what lasts, for the names in `first..end`.
fn cut_entries(entries: &mut [Entry], first: usize, end: usize)
    requires { IsSettledOutside entries.old first end }
    ensures { (n : ℕ) → let old = entry_at entries.old n in
        entry_at entries.new n ≡ record { live = old.lasting; lasting = old.lasting } }
{
    for place in first..end {
        let entry = &mut entries[place];
        entry.live = entry.lasting;
    }
}

impl Directory {
    /// A table in which no name leads anywhere.
    pub fn new(alloc: Global) -> Self
        ensures { result ≡ [] }
    {
        Directory {
            entries: Vec::new(alloc),
            first: usize::MAX,
            end: 0,
        }
    }

    /// Makes each name lead nowhere. The memory is kept.
    pub fn clear(&mut self)
        ensures { self.new ≡ [] }
    {
        self.entries.clear();
        self.first = usize::MAX;
        self.end = 0;
    }

    /// The file that a name leads to now.
    pub fn live(&self, name: u32) -> Option<usize>
        ensures { result ≡ (entry_at self.now name).live }
    {
        match self.entries.get(name as usize) {
            Some(entry) => entry.live,
            None => None,
        }
    }

    /// The least name that leads to a file now and isn't below this one.
    pub fn next(&self, from: u32) -> Option<u32>
        ensures { IsNext self.now from result }
    {
        for place in from as usize..self.entries.len() {
            if self.entries[place].live.is_some() {
                return u32::try_from(place).ok();
            }
        }
        None
    }

    /// Makes room for a name.
    #[inline(always)]
    fn cover(&mut self, name: u32) -> Result<(), AllocError>
        ensures same { (n : ℕ) → entry_at self.new n ≡ entry_at self.old n }
        ensures room { OnOk result (name < length self.new) }
        ensures err { OnErr result (self.new ≡ self.old) }
    {
        if name as usize >= self.entries.len() {
            return self.grow(name);
        }
        Ok(())
    }

    /// Makes room for a name past the table, and for some after it.
    #[inline(never)]
    fn grow(&mut self, name: u32) -> Result<(), AllocError>
        requires { length self.old ≤ name }
        ensures same { (n : ℕ) → entry_at self.new n ≡ entry_at self.old n }
        ensures room { OnOk result (name < length self.new) }
        ensures err { OnErr result (self.new ≡ self.old) }
    {
        let room = if self.entries.is_empty() {
            AT_FIRST
        } else {
            AT_ONCE
        };
        self.entries.resize(
            name as usize + room,
            Entry {
                live: None,
                lasting: None,
            },
        )
    }

    /// Leads a name of the table to a file, or to none.
    fn lead(&mut self, name: u32, file: Option<usize>)
        requires { name < length self.old }
        ensures { ChangesName self.old self.new name file }
    {
        let place = name as usize;
        let entry = &mut self.entries[place];
        entry.live = file;
        if place < self.first {
            self.first = place;
        }
        if self.end <= place {
            self.end = place + 1;
        }
    }

    /// Leads a name to a file.
    #[inline(always)]
    pub fn point(&mut self, name: u32, file: usize) -> Result<(), AllocError>
        ensures ok { OnOk result (ChangesName self.old self.new name (Some file)) }
        ensures err { OnErr result (self.new ≡ self.old) }
    {
        self.cover(name)?;
        self.lead(name, Some(file));
        Ok(())
    }

    /// Leads a name nowhere.
    pub fn remove(&mut self, name: u32)
        ensures { ChangesName self.old self.new name None }
    {
        if (name as usize) < self.entries.len() {
            self.lead(name, None);
        }
    }

    /// Leads one name to a file, and another nowhere.
    pub fn carry(&mut self, file: usize, from: u32, to: u32) -> Result<(), AllocError>
        requires { from ≢ to }
        ensures ok { OnOk result (MovesName self.old self.new file from to) }
        ensures err { OnErr result (self.new ≡ self.old) }
    {
        self.point(to, file)?;
        self.remove(from);
        Ok(())
    }

    /// Makes the names last as they are now.
    pub fn sync(&mut self)
        ensures { (n : ℕ) → let old = entry_at self.old n in
            entry_at self.new n ≡ record { live = old.live; lasting = old.live } }
    {
        sync_entries(&mut self.entries, self.first, self.end);
        self.first = usize::MAX;
        self.end = 0;
    }

    /// Leaves only the names that last.
    pub fn cut(&mut self)
        ensures { (n : ℕ) → let old = entry_at self.old n in
            entry_at self.new n ≡ record { live = old.lasting; lasting = old.lasting } }
    {
        cut_entries(&mut self.entries, self.first, self.end);
        self.first = usize::MAX;
        self.end = 0;
    }
}
