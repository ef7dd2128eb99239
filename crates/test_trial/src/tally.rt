// How often each call was granted, and declined by each number.
use cards::refusal::Refusal;
use rules::answer::Answer;
use rules::call::Call;
use std::io::{self, Print};

// The calls, in the order of the table.
const NAMES: [&str; 11] = [
    "proof", "edit", "read", "write", "lock", "stamp", "put", "settle", "drop", "end", "collect",
];

// How often each number was an answer: 0 if granted, or a refusal's, 1 to 12.
pub type Row = [u64; 13];

#[derive(Clone, Copy, PartialEq)]
pub struct Tally {
    // A row for each call.
    rows: [Row; 11],
}

// The row of a call.
fn row_of(call: Call) -> usize {
    match call {
        Call::Proof { .. } => 0,
        Call::Edit { .. } => 1,
        Call::Read { .. } => 2,
        Call::Write { .. } => 3,
        Call::Lock { .. } => 4,
        Call::Stamp { .. } => 5,
        Call::Put { .. } => 6,
        Call::Settle { .. } => 7,
        Call::Drop { .. } => 8,
        Call::End { .. } => 9,
        Call::Collect { .. } => 10,
    }
}

// The number of an answer.
fn number_of(answer: Result<Answer, Refusal>) -> usize {
    match answer {
        Ok(_) => 0,
        Err(why) => usize::from(why.number()),
    }
}

pub fn add_row(row: &mut Row, more: &Row) {
    for number in 0..13 {
        row[number] = row[number].saturating_add(more[number]);
    }
}

// How many calls a row has.
pub fn calls_of(row: &Row) -> u64 {
    let mut calls = 0u64;
    for count in row {
        calls = calls.saturating_add(*count);
    }
    calls
}

impl Tally {
    pub const NONE: Tally = Tally {
        rows: [[0; 13]; 11],
    };

    // Counts the answer, and says whether its number is in the table.
    pub fn count(&mut self, call: Call, answer: Result<Answer, Refusal>) -> bool {
        let Some(row) = self.rows.get_mut(row_of(call)) else {
            return false;
        };
        let Some(count) = row.get_mut(number_of(answer)) else {
            return false;
        };
        *count = count.saturating_add(1);
        true
    }

    // How often any call got each number.
    pub fn all(&self) -> Row {
        let mut all = [0; 13];
        for row in &self.rows {
            add_row(&mut all, row);
        }
        all
    }

    // The table: a line for each call, a column for each number.
    pub fn print(&self, rt: &impl Print) -> io::Result<()> {
        println!(rt;
            "call     granted       1       2       3       4       5       6       7       8       9      10      11      12"
        )?;
        for place in 0..11 {
            print_row(rt, NAMES[place], &self.rows[place])?;
        }
        Ok(())
    }
}

fn print_count(rt: &impl Print, count: u64) -> io::Result<()> {
    if count == 0 {
        return print!(rt; "       -");
    }
    print!(rt; " {count:>7}")
}

fn print_row(rt: &impl Print, name: &str, row: &Row) -> io::Result<()> {
    print!(rt; "{name:<8}")?;
    for count in row {
        print_count(rt, *count)?;
    }
    println!(rt; "")
}

// The refusals by which any call was declined.
fn print_refusals(rt: &impl Print, row: &Row) -> io::Result<()> {
    for number in 1..13 {
        if row[number] > 0 {
            print!(rt; " {number}")?;
        }
    }
    println!(rt; "")
}

// How many calls were granted, and which numbers the others got.
pub fn print_short(rt: &impl Print, row: &Row) -> io::Result<()> {
    let calls = calls_of(row);
    let granted = row[0];
    print!(rt; "{calls} calls, {granted} granted, others declined by")?;
    print_refusals(rt, row)
}
