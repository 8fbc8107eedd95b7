//! The page of all numbers: the rows of its tables, as `explain` tells them.

use std::alloc::Global;

/// A row of a table of the page.
#[derive(Clone, Copy)]
pub struct PageRow<'p> {
    pub number: u8,
    says: &'p str,
    instance: &'p str,
    cure: &'p str,
}

impl PageRow<'_> {
    /// The row that a line is; the cells behind the cure are the page's own.
    pub fn read(line: &str) -> Option<PageRow<'_>> {
        let row = line.strip_prefix("| ")?;
        let (number, row) = row.split_once(" | ")?;
        let Ok(number) = number.parse::<u8>() else {
            return None;
        };
        let (says, row) = row.split_once(" | ")?;
        PageRow::read_cure(number, says, row)
    }

    fn read_cure<'p>(number: u8, says: &'p str, row: &'p str) -> Option<PageRow<'p>> {
        let (instance, row) = row.split_once(" | ")?;
        let (cure, _) = row.split_once(" |")?;
        Some(PageRow {
            number,
            says,
            instance,
            cure,
        })
    }

    /// What is told of it, with the words before its number.
    pub fn text(&self, alloc: Global, words: &str) -> anyhow::Result<String> {
        let (number, says) = (self.number, self.says);
        let mut text = format!(in alloc; "{words} {number}: {says}\n  for instance:\n")?;
        for line in self.instance.split("<br>") {
            text.push_str(format!(in alloc; "    {line}\n")?.as_str())?;
        }
        text.push_str(format!(in alloc; "  cure: {}\n", self.cure)?.as_str())?;
        Ok(text)
    }
}

/// The words before the numbers of a section, as the program prints them.
pub fn words_of(title: &str) -> &'static str {
    match title {
        "Statuses of the program" => "status",
        "The warning" => "warning",
        "Errors of runs" => "error",
        "Numbers of files that are no valid ones" => "invalid",
        "Numbers of refused images" => "bad image",
        "Numbers of refused scripts" => "bad script",
        _ => "refused",
    }
}
