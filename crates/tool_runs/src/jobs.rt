// Tries the jobs of the tables in the folder that the program runs in, and says what differs.
//
// Each file whose name ends in `.jobs` is a table (`table.rt` of snesl_trials has its form). A line is printed for each job that
// is answered otherwise than its row tells, and then how many jobs there are and how many differ. After it stands how the
// programs of the jobs ended as networks beside their plain evaluation (`beside.rt`), which faults that meets (`faults.rt`), and then
// how many worked rows there are.
// How their programs end by the drives of several threads (`drives.rt`) is tried apart. It is an error where something differs,
// where there is no table, and where a table cannot be read or has no row.

mod answers;
mod beside;
mod drives;
mod faults;

use answers::Answers;
use anyhow::{Context, Result, ensure};
use beside::Beside;
use drives::Drives;
use faults::Faults;
use snesl_trials::tables::{Row, SpellingError, rows_of};
use std::alloc::Global;
use std::rt::Files;
use std::thread::Threads;
use std::{fs, io};

// The table of worked rows.
const WORKED: &str = "worked.programs";

/// What is tried of the rows of tables, and counted.
trait Trial {
    /// Tries a row. What is answered is none where it holds, and else what is said of it. The error is that a text of the row
    /// spells no bytes, or that memory was refused.
    fn try_row(
        &mut self,
        rt: &impl Threads,
        alloc: Global,
        row: &Row<'_>,
    ) -> Result<Option<String>, SpellingError>;
}

/// Tries the jobs of these tables.
pub fn try_jobs<R: Files + Print + AllocGlobal + Threads>(rt: &R, names: &[String]) -> Result<()> {
    ensure!(!names.is_empty(), "there is no table");
    let mut answers = Answers::none();
    for name in names {
        try_table(rt, name.as_str(), &mut answers)?;
    }
    println!(rt; "{answers}")?;
    let mut beside = Beside::none();
    for name in names {
        try_table(rt, name.as_str(), &mut beside)?;
    }
    println!(rt; "{beside}")?;
    let mut faults = Faults::none();
    for name in names {
        try_table(rt, name.as_str(), &mut faults)?;
    }
    try_table(rt, WORKED, &mut faults)?;
    println!(rt; "{faults}")?;
    let mut worked = Answers::none();
    try_table(rt, WORKED, &mut worked)?;
    println!(rt; "worked rows: {worked}")?;
    ensure!(answers.differing == 0, "jobs are answered otherwise");
    ensure!(beside.differing == 0, "networks and evaluation differ");
    ensure!(faults.differing == 0, "evaluation meets other faults");
    ensure!(worked.differing == 0, "worked rows are answered otherwise");
    Ok(())
}

/// Tries the programs of the worked rows by every drive.
pub fn try_worked<R: Files + Print + AllocGlobal + Threads>(rt: &R) -> Result<()> {
    let mut drives = Drives::none();
    try_table(rt, WORKED, &mut drives)?;
    println!(rt; "{drives}")?;
    ensure!(drives.differing == 0, "drives differ");
    Ok(())
}

/// The names of the tables in the folder, in order.
pub fn table_names(rt: &HostRuntime) -> io::Result<Vec<String>> {
    let mut names = Vec::new(rt.alloc());
    for entry in fs::read_dir(rt, ".")? {
        let entry = entry?;
        if entry.file_name().ends_with(".jobs") {
            names.push(String::from_str(rt.alloc(), entry.file_name())?)?;
        }
    }
    names.sort()?;
    Ok(names)
}

// Tries the rows of a table, and says which do not hold.
fn try_table<R: Files + Print + AllocGlobal + Threads, T: Trial>(
    rt: &R,
    name: &str,
    trial: &mut T,
) -> Result<()> {
    let text = fs::read_to_string(rt, name).context(format_args!("reading {name}"))?;
    let rows = rows_of(rt.alloc(), text.as_str()).context(format_args!("in {name}"))?;
    try_rows(rt, name, &rows, trial)
}

fn try_rows<R: Files + Print + AllocGlobal + Threads, T: Trial>(
    rt: &R,
    name: &str,
    rows: &[Row<'_>],
    trial: &mut T,
) -> Result<()> {
    for row in rows {
        let said = trial
            .try_row(rt, rt.alloc(), row)
            .context(format_args!("in {name}"))?;
        if let Some(said) = said {
            let line = row.line;
            println!(rt; "{name}, line {line}: {said}")?;
        }
    }
    Ok(())
}
