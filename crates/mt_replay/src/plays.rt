//! Files of plays. A file has parts, each with a head `== NAME` or `== NAME, after OTHER` and its lines; the lines
//! of a part that goes on from another come behind that one's. A play is a part from which no other goes on, with
//! all that comes before it. Below a line stands, with two spaces before it, how it is to be answered: where
//! nothing stands there, it is to be `ok`.

use std::alloc::Global;

/// Why a file isn't read.
#[derive(Clone, Copy, Debug, Eq, PartialEq)]
pub enum FileFault {
    /// There was no memory.
    Memory,
    /// The line of this number says nothing here.
    Line(u64),
}

/// The fault of what found no memory to be kept; none if it was kept.
pub fn kept(is_kept: bool) -> Result<(), FileFault> {
    if is_kept {
        Ok(())
    } else {
        Err(FileFault::Memory)
    }
}

/// A line, and how it is to be answered.
#[derive(Clone, Copy, Debug)]
pub struct Step<'a> {
    /// Its number in the file, from 1.
    pub number: u64,
    /// What it says.
    pub line: &'a str,
    /// How it is to be answered.
    pub want: &'a str,
}

/// A part of a file.
#[derive(Clone, Copy, Debug)]
pub struct Part<'a> {
    /// Its name.
    pub name: &'a str,
    /// The place of the part that it goes on from.
    after: Option<usize>,
    /// The place of its first step among those of the file.
    first: usize,
    /// Whether no other goes on from it.
    is_last: bool,
}

/// The name of the part whose lines say how things stand.
const LOOKS: &str = "looks";

/// What a file has.
#[derive(Drop)]
pub struct Plays<'a> {
    parts: Vec<Part<'a>>,
    steps: Vec<Step<'a>>,
}

/// The first line of a text, and what stands behind it, if anything does.
fn cut(text: &str) -> (&str, Option<&str>) {
    match text.split_once('\n') {
        Some((line, rest)) => (line, Some(rest)),
        None => (text, None),
    }
}

/// Reads a file.
pub fn read_plays(alloc: Global, text: &str) -> Result<Plays<'_>, FileFault> {
    let mut plays = Plays {
        parts: Vec::new(alloc),
        steps: Vec::new(alloc),
    };
    let (mut rest, mut number) = (text, 1u64);
    for _ in 0..=text.len() {
        let (line, behind) = cut(rest);
        plays.take(number, line)?;
        let Some(more) = behind else {
            break;
        };
        rest = more;
        number = number.saturating_add(1);
    }
    Ok(plays)
}

impl<'a> Plays<'a> {
    /// Takes a line in.
    fn take(&mut self, number: u64, line: &'a str) -> Result<(), FileFault> {
        if line.is_empty() || line.starts_with("#") {
            return Ok(());
        }
        if let Some(head) = line.strip_prefix("== ") {
            return self.begin(number, head);
        }
        if let Some(want) = line.strip_prefix("  ") {
            return self.want(number, want);
        }
        let step = Step {
            number,
            line,
            want: "ok",
        };
        kept(self.steps.push(step).is_ok())
    }

    /// The answer that the last line wants.
    fn want(&mut self, number: u64, want: &'a str) -> Result<(), FileFault> {
        match self.steps.last_mut() {
            Some(step) => {
                step.want = want;
                Ok(())
            }
            None => Err(FileFault::Line(number)),
        }
    }

    /// The part that a name stands for, which another goes on from.
    fn left(&mut self, number: u64, name: &str) -> Result<usize, FileFault> {
        for (place, part) in self.parts.iter_mut().enumerate() {
            if part.name == name {
                part.is_last = false;
                return Ok(place);
            }
        }
        Err(FileFault::Line(number))
    }

    /// Begins a part.
    fn begin(&mut self, number: u64, head: &'a str) -> Result<(), FileFault> {
        let (name, after) = match head.split_once(", after ") {
            Some((name, other)) => (name, Some(self.left(number, other)?)),
            None => (head, None),
        };
        let part = Part {
            name,
            after,
            first: self.steps.len(),
            is_last: name != LOOKS,
        };
        kept(self.parts.push(part).is_ok())
    }

    /// How many parts there are.
    pub fn len(&self) -> usize {
        self.parts.len()
    }

    /// The name of the play that ends with a part; none if another goes on from it.
    pub fn play_at(&self, place: usize) -> Option<&'a str> {
        match self.parts.get(place) {
            Some(part) if part.is_last => Some(part.name),
            _ => None,
        }
    }

    /// The steps of a part alone.
    pub fn own_steps(&self, place: usize) -> Option<&[Step<'a>]> {
        let part = self.parts.get(place)?;
        let end = match self.parts.get(place.saturating_add(1)) {
            Some(next) => next.first,
            None => self.steps.len(),
        };
        self.steps.get(part.first..end)
    }

    /// The steps that say how things stand, if a part does.
    pub fn looks(&self) -> Option<&[Step<'a>]> {
        for (place, part) in self.parts.iter().enumerate() {
            if part.name == LOOKS {
                return self.own_steps(place);
            }
        }
        None
    }

    /// The places of the parts of a play, from its last one to its first.
    fn places(&self, alloc: Global, last: usize) -> Result<Vec<usize>, FileFault> {
        let mut places = Vec::new(alloc);
        let mut at = Some(last);
        for _ in 0..self.parts.len() {
            let Some(place) = at else {
                break;
            };
            kept(places.push(place).is_ok())?;
            at = match self.parts.get(place) {
                Some(part) => part.after,
                None => None,
            };
        }
        Ok(places)
    }

    /// The steps of a play, which ends with a part, without those that say who watches.
    pub fn steps(&self, alloc: Global, last: usize) -> Result<Vec<Step<'a>>, FileFault> {
        let places = self.places(alloc, last)?;
        let mut steps = Vec::new(alloc);
        for place in places.iter().rev() {
            if let Some(own) = self.own_steps(*place) {
                add_steps(&mut steps, own)?;
            }
        }
        Ok(steps)
    }
}

/// Adds steps, without those that say who watches.
fn add_steps<'a>(steps: &mut Vec<Step<'a>>, more: &[Step<'a>]) -> Result<(), FileFault> {
    for step in more {
        if !step.line.starts_with("watch ") {
            kept(steps.push(*step).is_ok())?;
        }
    }
    Ok(())
}
