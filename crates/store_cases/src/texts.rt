//! The texts that lines have made.

use case_words::Stop;
use std::alloc::Global;

// One definition of all rows of one table.
const GLOBAL: &str = "bucket_definitions:\n  global:\n    data:\n      - SELECT * FROM t\n";

/// A rules file and a change file, of which lines make one after the other.
#[derive(Drop)]
pub struct Texts {
    rules: String,
    changes: String,
    makes_rules: bool,
}

impl Texts {
    /// A rules file of one definition, and no changes.
    pub fn new(alloc: Global) -> Result<Texts, Stop> {
        Ok(Texts {
            rules: String::from_str(alloc, GLOBAL)?,
            changes: String::new(alloc),
            makes_rules: true,
        })
    }

    /// The rules file.
    pub fn rules(&self) -> &str {
        self.rules.as_str()
    }

    /// The change file.
    pub fn changes(&self) -> &str {
        self.changes.as_str()
    }

    // Begins the rules file anew, or the change file.
    fn begin(&mut self, alloc: Global, makes_rules: bool) {
        self.makes_rules = makes_rules;
        if makes_rules {
            self.rules = String::new(alloc);
        } else {
            self.changes = String::new(alloc);
        }
    }

    // Adds a line to the file that was begun last.
    fn push(&mut self, line: &str) -> Result<(), Stop> {
        let text = if self.makes_rules {
            &mut self.rules
        } else {
            &mut self.changes
        };
        text.push_str(line)?;
        Ok(text.push_str("\n")?)
    }

    /// Does what a line says of the files: `rules` and `changes` begin one anew, and behind `|` stands its next line. False for
    /// other lines.
    pub fn add(&mut self, alloc: Global, line: &str) -> Result<bool, Stop> {
        if line == "rules" || line == "changes" {
            self.begin(alloc, line == "rules");
        } else if let Some(next) = line.strip_prefix('|') {
            self.push(next)?;
        } else {
            return Ok(false);
        }
        Ok(true)
    }
}
