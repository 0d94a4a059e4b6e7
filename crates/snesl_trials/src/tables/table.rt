// Tables of jobs and their answers, as text.
//
// A row begins with the lines of a job, the last of which ends in no line feed. After them stand the other lines
// below, in any order. All but numbers are spelled as `spelling.rt` says.
//
//   job TEXT        the program, and after a line `---` the input text
//       TEXT        a further line of the job, after four blanks
//   prints LINE     the line on standard output, without its line feed. Each row has it
//   says LINE       the line on standard error, without its line feed; with no such line there is none
//   status N        the exit status; with no such line it is 0
//   plain LINE      the fault that plain evaluation meets first, where that is not what is printed
//   word WORD       one word of the command line, which may be empty
//
// Between the rows empty lines and lines that begin with `#` are passed over. Any other line is refused, and so is a
// table with no row.

ghost use Rattle.std.specs.Prelude.{◌<◌, IfOk, vec_len};

use std::alloc::{AllocError, Global};
use thiserror::Error;

/// Why a text is no table. Each has the number of a line, from 1.
#[derive(Clone, Copy, Debug, Error)]
pub enum TableError {
    /// There is no row.
    #[error("there is no row")]
    Empty,
    /// A line that no row has, or has at another place, or a second time.
    #[error("line {0} is refused")]
    Line(usize),
    /// A row that tells no printed line.
    #[error("the row at line {0} tells no printed line")]
    Unfinished(usize),
    /// Memory was refused.
    #[error("out of memory")]
    NoMemory,
}

impl From<AllocError> for TableError {
    fn from(_: AllocError) -> TableError {
        TableError::NoMemory
    }
}

/// A job and its answer, as they are spelled.
#[derive(Drop)]
pub struct Row<'a> {
    /// The line where it begins, from 1.
    pub line: usize,
    /// The lines of the job.
    pub job: Vec<&'a str>,
    /// The words of the command line.
    pub words: Vec<&'a str>,
    /// What is printed.
    pub prints: Option<&'a str>,
    /// What is said on standard error.
    pub says: Option<&'a str>,
    /// The exit status.
    pub status: Option<u8>,
    /// The fault that plain evaluation meets first, where that is not what is printed.
    pub plain: Option<&'a str>,
}

impl Row<'_> {
    // Whether nothing but the job was given yet.
    fn is_open(&self) -> bool {
        self.words.is_empty()
            && self.prints.is_none()
            && self.says.is_none()
            && self.status.is_none()
            && self.plain.is_none()
    }
}

/// The rows of a table, of which there is at least one, each with its printed line.
pub fn rows_of<'a>(alloc: Global, text: &'a str) -> Result<Vec<Row<'a>>, TableError>
    ensures { IfOk result (λ rows. 0 < vec_len rows) }
{
    let mut rows = Vec::new(alloc);
    let mut number = 0usize;
    for line in text.lines() {
        number = number.saturating_add(1);
        if !line.is_empty() && !line.starts_with('#') {
            read_line(alloc, &mut rows, number, line)?;
        }
    }
    if rows.is_empty() {
        return Err(TableError::Empty);
    }
    for row in &rows {
        if row.prints.is_none() {
            return Err(TableError::Unfinished(row.line));
        }
    }
    Ok(rows)
}

// Takes one line into the rows.
fn read_line<'a>(
    alloc: Global,
    rows: &mut Vec<Row<'a>>,
    number: usize,
    line: &'a str,
) -> Result<(), TableError> {
    let (field, text) = line.split_once(' ').unwrap_or((line, ""));
    if field == "job" {
        rows.push(begun(alloc, number, text)?)
            .map_err(AllocError::from)?;
        return Ok(());
    }
    let Some(row) = rows.last_mut() else {
        return Err(TableError::Line(number));
    };
    if let Some(more) = line.strip_prefix("    ") {
        if !row.is_open() {
            return Err(TableError::Line(number));
        }
        row.job.push(more).map_err(AllocError::from)?;
        return Ok(());
    }
    if take_field(row, field, text)? {
        Ok(())
    } else {
        Err(TableError::Line(number))
    }
}

// A row that begins at this line, with the first line of its job.
fn begun<'a>(alloc: Global, line: usize, text: &'a str) -> Result<Row<'a>, AllocError> {
    let mut job = Vec::new(alloc);
    job.push(text)?;
    Ok(Row {
        line,
        job,
        words: Vec::new(alloc),
        prints: None,
        says: None,
        status: None,
        plain: None,
    })
}

// Takes a field of the answer, or a word; `false` where there is no such field, or it is there already.
fn take_field<'a>(row: &mut Row<'a>, field: &str, text: &'a str) -> Result<bool, AllocError> {
    match field {
        "word" => row.words.push(text)?,
        "prints" if row.prints.is_none() => row.prints = Some(text),
        "says" if row.says.is_none() => row.says = Some(text),
        "plain" if row.plain.is_none() => row.plain = Some(text),
        "status" if row.status.is_none() => row.status = text.parse::<u8>().ok(),
        _ => return Ok(false),
    }
    Ok(field != "status" || row.status.is_some())
}
