// What has been counted so far, and the lines that tell it.
use crate::row;
use crate::row::Row;
use crate::sum::{ALL_BITS, Table, fed_bytes};

#[derive(Clone, Copy, Default)]
pub struct Tally {
    // Whether the last row was as it has to be.
    pub whole: bool,
    pub sum: u32,
    pub rows: u64,
    pub groups: u64,
    pub answers: u64,
    pub differ: u64,
    // Of the group that is being read, with the row of the first difference.
    pub group_answers: u64,
    pub group_differ: u64,
    pub first: Option<u64>,
    // How many bytes of the buffer the next restoring reads.
    pub length: u32,
}

impl Tally {
    pub fn begun() -> Tally {
        Tally {
            sum: ALL_BITS,
            ..Tally::default()
        }
    }

    // One more row, and its bytes in the sum.
    pub fn counted(&mut self, table: &Table, row: &Row) {
        self.sum = fed_bytes(table, self.sum, &row.0);
        self.rows = self.rows.wrapping_add(1);
    }

    // One more answer.
    pub fn answered(&mut self, same: bool) {
        self.group_answers = self.group_answers.wrapping_add(1);
        if !same {
            self.first = self.first.or(Some(self.rows));
            self.group_differ = self.group_differ.wrapping_add(1);
        }
    }

    // The last row: it has the number of rows and the sum of all bytes before that sum.
    pub fn ended(&mut self, table: &Table, row: &Row) {
        self.sum = fed_bytes(table, self.sum, &row.0[..row::SUMMED]) ^ ALL_BITS;
        self.rows = self.rows.wrapping_add(1);
        self.whole = self.rows == u64::from(row.size()) && self.sum == row.list_sum();
    }

    // The rest of a group's line; nothing before the first group.
    fn say_group<R: Print>(&self, rt: &R) {
        if self.groups == 0 {
            return;
        }
        let _ = match self.first {
            None => println!(rt; "{} answers as recorded", self.group_answers),
            Some(first) => println!(rt;
                "{} answers, of which {} differ, the first in row {first}",
                self.group_answers, self.group_differ
            ),
        };
    }

    // The group's answers go into the total.
    fn closed<R: Print>(&mut self, rt: &R) {
        self.say_group(rt);
        self.answers = self.answers.wrapping_add(self.group_answers);
        self.differ = self.differ.wrapping_add(self.group_differ);
        self.group_answers = 0;
        self.group_differ = 0;
        self.first = None;
    }

    // The next group: its line begins with its name.
    pub fn opened<R: Print>(&mut self, rt: &R, row: &Row) {
        self.closed(rt);
        self.groups = self.groups.wrapping_add(1);
        let _ = rt.write_all(row.name());
        let _ = print!(rt; ": ");
    }

    // The last lines.
    pub fn told<R: Print>(&mut self, rt: &R) {
        self.closed(rt);
        let Tally {
            sum,
            rows,
            groups,
            answers,
            differ,
            ..
        } = *self;
        let whole = if self.whole { "whole" } else { "NOT WHOLE" };
        let _ = println!(rt;
            "total: {groups} groups, {answers} answers, {differ} differ; list of {rows} rows, sum {sum:08x}, {whole}"
        );
    }
}
