//! What is shown of a run while it goes on, and what is kept of it.

ghost use Rattle.std.specs.Prelude.{◌≡◌, IfOk, IfSome, OnOk};
ghost use Rattle.explain_report.specs.Put.{IsPut};
ghost use Rattle.explain_text.specs.Seen.{IsAt, IsSeen, PutsSeen};

use crate::folding::{Folding, Step, put_fold};
use crate::manner::{Format, Manner, PLAIN};
use crate::places::Places;
use crate::progress::{Doing, Progress};
use crate::running::{put_running, wipe};
use event_world::Event;
use explain_findings::{Stopwatch, found_of};
use explain_report::{Found, PutEnd, Record, Report, Style, Verdict, put_line};
use gl_base::sink::{Sink, put_all};
use gl_book::{Answer, Answered, LineOf, Origin, Refusal, code_words};
use gl_logic::{NoMemory, Texts};
use std::alloc::Global;
use std::rt::Clock;

/// What came of the event of an item.
#[derive(Drop)]
struct Known {
    item: u64,
    found: Found,
}

/// Shows each line as it is decided, with its event's place in front, where text is asked for; and keeps what is known of it.
#[derive(Drop)]
pub(crate) struct Screen<'a, R: Clock, E: Sink + Drop> {
    alloc: Global,
    pub manner: Manner,
    notes: Option<E>,
    watch: Stopwatch<'a, R>,
    places: Places,
    // the number of the item behind the last one that was told of
    next: usize,
    answered: Option<Known>,
    refusal: Option<Refusal>,
    records: Vec<Record>,
    folding: Folding,
    pub progress: &'a Progress,
}

/// What is left of a run: the places of its items, and what is known of its lines.
#[derive(Drop)]
pub(crate) struct Kept {
    pub places: Places,
    pub records: Vec<Record>,
}

/// A line without its end.
fn without_end(line: &[u8]) -> &[u8] {
    match line {
        [front @ .., b'\n'] => front,
        _ => line,
    }
}

/// The records from the one of a number on.
fn behind(records: &[Record], from: usize) -> &[Record] {
    if from <= records.len() {
        &records[from..]
    } else {
        &[]
    }
}

/// The item of a line, and its place, where it has one.
#[derive(Clone, Copy)]
struct Seen {
    item: usize,
    line: u32,
    column: u32,
}

/// Puts what is known of the item of a record.
fn put_seen(alloc: Global, made: &mut Record, places: &Places, seen: Seen) -> Result<(), NoMemory>
    ensures { OnOk result (PutsSeen seen made.new) }
{
    made.item = seen.item;
    made.line = seen.line;
    made.column = seen.column;
    if let Some(place) = places.items.get(seen.item) {
        made.file = places.file(*place).to_vec(alloc)?;
    }
    if let Some(named) = places.named.get(seen.item) {
        made.kind = named.kind.to_vec(alloc)?;
        if made.name.as_slice().is_empty() {
            made.name = named.name.to_vec(alloc)?;
        }
    }
    Ok(())
}

/// What stands in front of a line: the place of its event.
fn front_of(alloc: Global, manner: Manner, record: &Record) -> Result<Vec<u8>, NoMemory> {
    let mut front = Report::new(alloc);
    if record.line > 0 {
        front.place(
            record.file.as_slice(),
            record.line as u64,
            record.column as u64,
        );
    }
    front.say(manner.color(record.verdict()));
    front.into_bytes()
}

/// What stands behind a line: its seconds, where they are told, and its end.
fn back_of(alloc: Global, manner: Manner, record: &Record) -> Result<Vec<u8>, NoMemory> {
    let mut back = Report::new(alloc);
    let verdict = record.verdict();
    if !manner.color(verdict).is_empty() {
        back.say(PLAIN);
    }
    if manner.seconds && verdict.is_of_event() {
        back.say("  ");
        back.millis(record.micros);
        back.say(" s");
    }
    back.say("\n");
    back.into_bytes()
}

/// Writes a line, where text is asked for.
fn put<K: Sink>(
    alloc: Global,
    manner: Manner,
    out: &mut K,
    front: &[u8],
    text: &[u8],
    back: &[u8],
) -> Result<(), PutEnd>
    ensures cause { IsPut (K.faults out.old) (K.faults out.new) result }
{
    if manner.format != Format::Text {
        return Ok(());
    }
    put_line(alloc, out, Style::Plain, front, text, back)
}

/// What came of a form that refuses the book.
fn found_of_refusal(alloc: Global, refusal: Refusal) -> Result<Found, NoMemory> {
    let mut found = Found::new(alloc, Verdict::Refused);
    let words = code_words(alloc, refusal.code)?;
    found.words = words.as_bytes().to_vec(alloc)?;
    Ok(found)
}

impl<'a, R: Clock, E: Sink + Drop> Screen<'a, R, E> {
    /// Nothing is shown yet.
    pub(crate) fn new(
        clock: &'a R,
        alloc: Global,
        places: Places,
        manner: Manner,
        notes: Option<E>,
        progress: &'a Progress,
    ) -> Screen<'a, R, E> {
        let folding = Folding::new(!manner.shows_all);
        Screen {
            alloc,
            manner,
            notes,
            watch: Stopwatch::new(clock),
            places,
            next: 0,
            answered: None,
            refusal: None,
            records: Vec::new(alloc),
            folding,
            progress,
        }
    }

    /// What is left.
    pub(crate) fn into_kept(self) -> Kept {
        let Screen {
            places,
            records,
            ..
        } = self;
        Kept { places, records }
    }

    /// Is told an answer, whose lines come next. An event that has none is behind with it.
    pub(crate) fn note(
        &mut self,
        at: Answered<'_>,
        texts: &Texts,
        answer: &Answer,
    ) -> Result<(), NoMemory> {
        self.answered = Some(Known {
            item: at.spot.item,
            found: found_of(self.alloc, texts, at.event, answer)?,
        });
        if matches!(at.event, Event::Nothing) {
            self.turn_behind(at.spot.item as usize)?;
        }
        Ok(())
    }

    /// Is told the refusal, whose line comes next.
    pub(crate) fn refuse(&mut self, refusal: Refusal) {
        self.refusal = Some(refusal);
    }

    /// What came of the event of an item, for one of its lines: what was answered last, where it is of that item; else the event
    /// is one that is answered while others wait, and only taken in.
    fn found_at(&mut self, item: u64) -> Result<Found, NoMemory> {
        match &mut self.answered {
            Some(known) if known.item == item => known.found.for_line(self.alloc),
            _ => Ok(Found::new(self.alloc, Verdict::Taken)),
        }
    }

    /// What came of what a line is of, which is of no input.
    fn found_of_line(&mut self, origin: Origin) -> Result<Found, NoMemory> {
        match (origin, self.refusal) {
            (Origin::Event(spot) | Origin::Input(spot), _) => self.found_at(spot.item),
            (Origin::Mark(_), _) => Ok(Found::new(self.alloc, Verdict::Mark)),
            (Origin::End, Some(refusal)) => found_of_refusal(self.alloc, refusal),
            (Origin::End, None) => Ok(Found::new(self.alloc, Verdict::Done)),
        }
    }

    /// The item of what a line is of, and its place; none of the last line.
    fn seen_of_line(&self, origin: Origin) -> Option<Seen>
        ensures { IsSeen origin result }
    {
        match (origin, self.refusal) {
            (Origin::Event(spot) | Origin::Input(spot), _) => Some(Seen {
                item: spot.item as usize,
                line: spot.line,
                column: spot.column,
            }),
            (Origin::Mark(number), _) => Some(Seen {
                item: number as usize,
                line: 0,
                column: 0,
            }),
            (Origin::End, Some(Refusal { line, column, .. })) => Some(Seen {
                item: self.places.number_at(self.next, line, column),
                line,
                column,
            }),
            (Origin::End, None) => None,
        }
    }

    /// What is known of a line that is of no input.
    #[tactic(auto, using(crate::proofs::LinePlaces::at_seen, crate::proofs::LinePlaces::at_none))]
    fn record_of(&mut self, of: LineOf<'_>, text: &[u8]) -> Result<Record, NoMemory>
        // A place is that of the item that the line is of.
        ensures place { IfOk result (IsAt of.entry.origin) }
    {
        let found = self.found_of_line(of.origin)?;
        let mut record = Record::new(self.alloc, text.to_vec(self.alloc)?, found);
        record.micros = self.watch.lap();
        record.name = of.name.to_vec(self.alloc)?;
        if let Some(seen) = self.seen_of_line(of.origin) {
            put_seen(self.alloc, &mut record, &self.places, seen)?;
        }
        if of.origin == Origin::End {
            self.refusal = None;
        }
        Ok(record)
    }

    /// Names the event that runs next.
    pub(crate) fn name_running(&mut self) -> Result<(), NoMemory> {
        self.progress.turn_to(self.next, Doing::Run);
        match &mut self.notes {
            Some(notes) => put_running(self.alloc, notes, &self.places, self.next),
            None => Ok(()),
        }
    }

    /// Wipes the name of the event that ran.
    pub(crate) fn wipe_running(&mut self) {
        if let Some(notes) = &mut self.notes {
            wipe(notes);
        }
    }

    /// Names the event behind an item.
    fn turn_behind(&mut self, item: usize) -> Result<(), NoMemory> {
        self.next = item.saturating_add(1);
        self.wipe_running();
        self.name_running()
    }

    /// Keeps what is known of a line.
    fn keep(&mut self, record: Record) -> Result<(), NoMemory> {
        self.records.push(record)?;
        Ok(())
    }

    /// Writes the line of a record that is kept, by its number.
    fn put_kept<K: Sink>(&self, out: &mut K, number: usize) -> Result<(), PutEnd>
        ensures cause { IsPut (K.faults out.old) (K.faults out.new) result }
    {
        let Some(record) = self.records.get(number) else {
            return Ok(());
        };
        let front = front_of(self.alloc, self.manner, record)?;
        let back = back_of(self.alloc, self.manner, record)?;
        let text = record.text.as_slice();
        put(self.alloc, self.manner, out, &front, text, &back)
    }

    /// Writes the lines of records that are kept, from one number to another.
    fn put_unfolded<K: Sink>(&self, out: &mut K, from: usize, to: usize) -> Result<(), PutEnd>
        ensures cause { IsPut (K.faults out.old) (K.faults out.new) result }
    {
        for number in from..to.saturating_add(1) {
            self.put_kept(out, number)?;
        }
        Ok(())
    }

    /// Writes the line that stands for those of an included book, from the one of a number on.
    fn put_folded<K: Sink>(&self, out: &mut K, from: usize) -> Result<(), PutEnd>
        ensures cause { IsPut (K.faults out.old) (K.faults out.new) result }
    {
        if self.manner.format != Format::Text {
            return Ok(());
        }
        let mut line = Report::new(self.alloc);
        put_fold(&mut line, behind(&self.records, from), self.manner.seconds);
        put_all(out, &line.into_bytes()?)?;
        Ok(())
    }

    /// Shows a line that is of no input, and keeps what is known of it.
    fn show_line<K: Sink>(&mut self, out: &mut K, of: LineOf<'_>, text: &[u8]) -> Result<(), PutEnd>
        ensures cause { IsPut (K.faults out.old) (K.faults out.new) result }
    {
        let record = self.record_of(of, text)?;
        let number = self.records.len();
        let step = self.folding.take(&record, number);
        self.keep(record)?;
        match step {
            Step::Show => self.put_kept(out, number),
            Step::Hold => Ok(()),
            Step::Fold(from) => self.put_folded(out, from),
            Step::Unfold(from) => self.put_unfolded(out, from, number),
        }
    }

    /// Shows a line of an item, and keeps what is known of it.
    fn show_item<K: Sink>(
        &mut self,
        out: &mut K,
        of: LineOf<'_>,
        text: &[u8],
        item: u64,
    ) -> Result<(), PutEnd>
        ensures cause { IsPut (K.faults out.old) (K.faults out.new) result }
    {
        self.show_line(out, of, text)?;
        self.turn_behind(item as usize)?;
        Ok(())
    }

    /// Shows a line.
    pub(crate) fn show<K: Sink>(
        &mut self,
        out: &mut K,
        of: LineOf<'_>,
        line: &[u8],
    ) -> Result<(), PutEnd>
        ensures cause { IsPut (K.faults out.old) (K.faults out.new) result }
    {
        let text = without_end(line);
        self.wipe_running();
        match of.origin {
            Origin::Input(_) => put(self.alloc, self.manner, out, b"", text, b"\n"),
            Origin::Event(spot) => self.show_item(out, of, text, spot.item),
            Origin::Mark(item) => self.show_item(out, of, text, item),
            Origin::End => self.show_line(out, of, text),
        }
    }
}
