// The stored schedules: runs each through `replay`, holds its whole output to the stored one byte for byte,
// and prints a line a group and a total.
#![tactic(auto)]

use list_replay::replay;
use page::Page;
use std::fs::Files;
use std::{fs, io};
use streams::{front, read_full, room};

// How many schedules were run, and how many of them gave the stored output.
#[derive(Clone, Copy, Default)]
struct Tally {
    ran: u64,
    equal: u64,
}

// What every schedule is run in: its text, its output, and the stored output. Each has one byte more than a text may
// have or an output can have, so that a longer one shows as such, and a longer stored one differs.
#[derive(Drop)]
struct Bench {
    text: [u8; 65537],
    out: [u8; 786433],
    want: [u8; 786433],
}

// The name of the open group, its tally, and that of all groups. An empty name is no group.
#[derive(Clone, Copy, Default)]
struct Course<'a> {
    name: &'a [u8],
    group: Tally,
    total: Tally,
}

// Reads the file of this name and ending, as much of it as fits, and answers how many bytes came; or there is none.
// Bytes that are no UTF-8 name none.
fn load(rt: &impl Files, name: &[u8], ending: &[u8], into: &mut [u8]) -> io::Result<Option<usize>> {
    let mut path = room::<4096>();
    let mut page = Page::new(&mut path);
    page.put(name);
    page.put(ending);
    let Ok(path) = str::from_utf8(page.written()) else {
        return Ok(None);
    };
    let Ok(mut file) = fs::open(rt, path) else {
        return Ok(None);
    };
    Ok(Some(read_full(&mut file, into)?))
}

// `differs: NAME`.
fn say_differs(rt: &impl Print, name: &[u8]) -> io::Result<()> {
    let mut line = room::<4096>();
    let mut page = Page::new(&mut line);
    page.put(b"differs: ");
    page.put(name);
    page.put(b"\n");
    rt.write_all(page.written())
}

impl Tally {
    // One schedule more. The index is far too short for the last number.
    fn count(&mut self, equal: bool) {
        self.ran = self.ran.saturating_add(1);
        self.equal = self.equal.saturating_add(u64::from(equal));
    }

    // `NAME: 3 of 4 equal`.
    fn say(&self, rt: &impl Print, name: &[u8]) -> io::Result<()> {
        let mut line = room::<4096>();
        let mut page = Page::new(&mut line);
        page.put(name);
        page.put(b": ");
        page.put_number(self.equal);
        page.put(b" of ");
        page.put_number(self.ran);
        page.put(b" equal\n");
        rt.write_all(page.written())
    }
}

impl Bench {
    // Whether the schedule of this name gives its stored output, and no more. A missing file never does.
    fn agrees(&mut self, rt: &impl Files, name: &[u8]) -> io::Result<bool> {
        let Some(n) = load(rt, name, b".in", &mut self.text)? else {
            return Ok(false);
        };
        let Some(m) = load(rt, name, b".out", &mut self.want)? else {
            return Ok(false);
        };
        let end = replay(front(&self.text, n), &mut self.out);
        Ok(front(&self.out, end) == front(&self.want, m))
    }
}

impl<'a> Course<'a> {
    // The line of the open group, if there is one.
    fn say_group(&self, rt: &impl Print) -> io::Result<()> {
        if self.name.is_empty() {
            return Ok(());
        }
        self.group.say(rt, self.name)
    }

    // Ends the open group and opens another, in which nothing is run yet.
    fn open(&mut self, rt: &impl Print, name: &'a [u8]) -> io::Result<()> {
        self.say_group(rt)?;
        self.name = name;
        self.group = Tally::default();
        Ok(())
    }

    // One schedule of the open group.
    fn run(&mut self, rt: &(impl Files + Print), name: &[u8], bench: &mut Bench) -> io::Result<()> {
        let equal = bench.agrees(rt, name)?;
        if !equal {
            say_differs(rt, name)?;
        }
        self.group.count(equal);
        self.total.count(equal);
        Ok(())
    }

    // A line of the index: `[NAME]` opens a group, anything else is a schedule.
    fn run_line(
        &mut self,
        rt: &(impl Files + Print),
        line: &'a [u8],
        bench: &mut Bench,
    ) -> io::Result<()> {
        match line {
            [b'[', name @ .., _] => self.open(rt, name),
            [b'['] => self.open(rt, &[]),
            _ => self.run(rt, line, bench),
        }
    }
}

// Runs every line of the index; a last one without an LF too.
fn run_all<'a>(
    rt: &(impl Files + Print),
    index: &'a [u8],
    bench: &mut Bench,
) -> io::Result<Course<'a>> {
    let mut course = Course::default();
    for line in index.split_inclusive(|&byte| byte == b'\n') {
        course.run_line(rt, line.strip_suffix(b"\n").unwrap_or(line), bench)?;
    }
    Ok(course)
}

fn main(rt: HostRuntime) -> io::Result<()> {
    let mut index = room::<65536>();
    let Some(n) = load(&rt, b"index", b"", &mut index)? else {
        return say_differs(&rt, b"index");
    };
    // An index that fills its room may be cut short, and none of it is run.
    let whole = if n < index.len() {
        front(&index, n)
    } else {
        &[]
    };
    let mut bench = Bench {
        text: room(),
        out: room(),
        want: room(),
    };
    let course = run_all(&rt, whole, &mut bench)?;
    course.say_group(&rt)?;
    course.total.say(&rt, b"total")
}
