//! Cases of programs and what they answer, for tests. They are kept as texts, since a list of many texts is slow to prove.
//!
//! A case is the lines of a program, then what it prints, each line behind `> `, then its line on the fault behind `! `,
//! then its end behind `= `. Empty lines before a program are passed over.

use std::alloc::{AllocError, Global};

/// A program, what it prints and tells, and its end.
#[derive(Drop)]
pub struct Case {
    pub text: String,
    pub out: String,
    pub fault: String,
    pub end: String,
}

impl Case {
    fn new(alloc: Global) -> Self {
        Case {
            text: String::new(alloc),
            out: String::new(alloc),
            fault: String::new(alloc),
            end: String::new(alloc),
        }
    }

    /// Adds a line that isn't the last one.
    fn add(&mut self, line: &str) -> Result<(), AllocError> {
        if let Some(printed) = line.strip_prefix("> ") {
            add_line(&mut self.out, printed)
        } else if let Some(told) = line.strip_prefix("! ") {
            add_line(&mut self.fault, told)
        } else if self.text.is_empty() && line.is_empty() {
            Ok(())
        } else {
            add_line(&mut self.text, line)
        }
    }
}

/// Adds a line with its end.
pub fn add_line(text: &mut String, line: &str) -> Result<(), AllocError> {
    text.push_str(line)?;
    text.push('\n')
}

/// The cases of a table.
pub fn cases(alloc: Global, table: &str) -> Result<Vec<Case>, AllocError> {
    let mut read = Vec::new(alloc);
    let mut case = Case::new(alloc);
    for line in table.split('\n') {
        if let Some(end) = line.strip_prefix("= ") {
            case.end.push_str(end)?;
            read.push(case)?;
            case = Case::new(alloc);
        } else {
            case.add(line)?;
        }
    }
    Ok(read)
}
