// What the values of the options say.

ghost use Rattle.std.specs.Prelude.{◌≡◌, ◌≤◌, ℕ, List, IfOk, IfErr};
ghost use Rattle.std.specs.Char.{digit_value};
ghost use Rattle.std.specs.List.{range_with_len};
ghost use Rattle.flow_drives.specs.Configs.{IsWithin};
ghost use Rattle.flow_drives.specs.Limits.{most_threads};
ghost use Rattle.snesl_run.specs.command_line.Settings.{IsBadConfig, IsShareDigit, RefusesBut, drive_word, text_said};
ghost use Rattle.snesl_run.specs.command_line.Settings.{SaysDrive, SaysNumber, SaysNoneWithin};
ghost use Rattle.snesl_run.specs.command_line.Settings.{SaysShare, SaysSomeShare};
ghost use Rattle.snesl_run.specs.command_line.Settings.{SpellsNumber, SpellsNoNumber, SpellsShare};

use flow_drives::Drive;
use snesl_data::Refusal;
use std::alloc::{AllocError, Global};

// The most digits of a share.
const MAX_DIGITS: usize = 64;

// The number from 1 to `most` that the value spells, or the default where there is no value.
pub(crate) fn number_said(said: Option<&str>, default: usize, most: usize) -> Result<usize, Refusal>
    ensures within { IfOk result (λ number. IsWithin most number) }
    ensures said { IfOk result (λ number. SaysNumber (text_said said.entry) default number) }
    ensures refused { IfErr result IsBadConfig }
    ensures unsaid { IfErr result (λ _. SaysNoneWithin most (text_said said.entry) default) }
{
    let number = match said {
        None => default,
        Some(text) => number_spelled(text)?,
    };
    if number >= 1 && number <= most {
        Ok(number)
    } else {
        Err(Refusal::BadConfig)
    }
}

// The number of which the text is a spelling.
fn number_spelled(text: &str) -> Result<usize, Refusal>
    ensures spelled { IfOk result (λ number. SpellsNumber text.now number) }
    ensures refused { IfErr result IsBadConfig }
    ensures unspelled { IfErr result (λ _. SpellsNoNumber text.now) }
{
    match text.parse::<usize>() {
        Ok(number) => Ok(number),
        Err(_) => Err(Refusal::BadConfig),
    }
}

// The drive of which the value is the word, or `Rings` where there is no value.
pub(crate) fn drive_said(said: Option<&str>) -> Result<Drive, Refusal>
    ensures said { IfOk result (λ drive. SaysDrive (text_said said.entry) drive) }
    ensures refused { IfErr result IsBadConfig }
    ensures unsaid { IfErr result (λ _. (drive : _) → ¬ (SaysDrive (text_said said.entry) drive)) }
{
    match said {
        None => Ok(Drive::Rings),
        Some(text) => drive_spelled(text),
    }
}

// The drive of which the text is the word.
fn drive_spelled(text: &str) -> Result<Drive, Refusal>
    ensures word { IfOk result (λ drive. text.now ≡ drive_word drive) }
    ensures refused { IfErr result IsBadConfig }
    ensures none { IfErr result (λ _. (drive : _) → ¬ (text.now ≡ drive_word drive)) }
{
    if text == "serial" {
        Ok(Drive::Serial)
    } else if text == "rounds" {
        Ok(Drive::Rounds)
    } else if text == "rings" {
        Ok(Drive::Rings)
    } else {
        Err(Refusal::BadConfig)
    }
}

// The entries that the value spells, or the numbers below `threads` where there is no value.
pub(crate) fn share_said(
    alloc: Global,
    said: Option<&str>,
    threads: usize,
) -> Result<Vec<u8>, Refusal>
    requires { threads ≤ most_threads }
    ensures said { IfOk result (λ share. SaysShare (text_said said.entry) threads share.items) }
    ensures refused { IfErr result (RefusesBut (SaysSomeShare (text_said said.entry) threads)) }
{
    match said {
        None => {
            let share = threads_in_turn(alloc, threads)?;
            Ok(share)
        }
        Some(text) => share_spelled(alloc, text),
    }
}

// The numbers below `threads`, in ascending order.
fn threads_in_turn(alloc: Global, threads: usize) -> Result<Vec<u8>, AllocError>
    requires { threads ≤ most_threads }
    ensures { IfOk result (λ share. share.items ≡ range_with_len 0 threads) }
{
    let mut share = Vec::with_capacity(alloc, threads)?;
    for thread in 0..threads {
        share.push(thread as u8)?;
    }
    Ok(share)
}

// The entries of which the text is the spelling.
fn share_spelled(alloc: Global, text: &str) -> Result<Vec<u8>, Refusal>
    ensures spelled { IfOk result (λ share. SpellsShare text.now share.items) }
    ensures refused { IfErr result (RefusesBut ((share : List ℕ) × SpellsShare text.now share)) }
{
    if text.is_empty() || text.len() > MAX_DIGITS {
        return Err(Refusal::BadConfig);
    }
    let mut share = Vec::with_capacity(alloc, text.len())?;
    for digit in text.as_bytes() {
        let entry = entry_of(*digit)?;
        share.push(entry)?;
    }
    Ok(share)
}

// The value of one of the digits 0..9 and a..f.
fn entry_of(digit: u8) -> Result<u8, Refusal>
    ensures digit { IfOk result (λ _. IsShareDigit digit) }
    ensures value { IfOk result (λ entry. entry ≡ digit_value digit) }
    ensures refused { IfErr result IsBadConfig }
    ensures none { IfErr result (λ _. ¬ (IsShareDigit digit)) }
{
    match digit {
        b'0'..=b'9' => Ok(digit - b'0'),
        b'a'..=b'f' => Ok(digit - b'a' + 10),
        _ => Err(Refusal::BadConfig),
    }
}
