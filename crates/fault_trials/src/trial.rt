// A line that names a trial, and what is printed of it.
use crate::allocations::run_case;
use crate::case::read_case;
use crate::edges::break_off;
use crate::fuses::fuse_all;
use crate::headers::{Headers, flips, scan_noise};
use crate::mutants::{mutant, run_mutants};
use crate::rows::restart_all;
use crate::spellings::spell_all;
use crate::trouble::Trouble;
use std::fs;
use std::io::Write;

/// Carries out the trial that a line names, and prints what it counted. In the line numbers come before files.
pub(crate) fn answer(rt: &HostRuntime, line: &str) -> Result<(), Trouble> {
    let mut words = line.split(' ');
    match words.next().unwrap_or("") {
        "growths" => answer_allocations(rt, words.next()),
        "fuses" => answer_fuses(rt, words.next()),
        "headers" => {
            let seed = number(words.next())?;
            let counts = scan_noise(rt.alloc(), seed, number(words.next())?)?;
            report_headers(rt, line, &counts)
        }
        "flips" => report_headers(rt, line, &flips(rt.alloc())?),
        "mutants" => {
            let seed = number(words.next())?;
            answer_mutants(rt, seed, number(words.next())?, words.next())
        }
        "mutant" => {
            let seed = number(words.next())?;
            print_mutant(rt, seed, number(words.next())?, words.next())
        }
        "edges" => answer_edges(rt, words.next(), words.next()),
        "spellings" => answer_spellings(rt, words.next()),
        "restarts" => answer_restarts(rt, words.next()),
        _ => Err(Trouble::Input),
    }
}

fn number(word: Option<&str>) -> Result<u32, Trouble> {
    named(word)?.parse::<u32>().ok().ok_or(Trouble::Input)
}

fn named(word: Option<&str>) -> Result<&str, Trouble> {
    word.ok_or(Trouble::Input)
}

fn answer_allocations(rt: &HostRuntime, file: Option<&str>) -> Result<(), Trouble> {
    let file = named(file)?;
    let text = fs::read_to_string(rt, file)?;
    let counts = run_case(rt.alloc(), &read_case(rt.alloc(), text.as_str())?)?;
    let (answers, expected) = (counts.answers, counts.stops);
    println!(rt; "growths {file}: {answers} answers, memory wanted {expected} times")?;
    Ok(())
}

fn answer_fuses(rt: &HostRuntime, file: Option<&str>) -> Result<(), Trouble> {
    let file = named(file)?;
    let text = fs::read_to_string(rt, file)?;
    let counts = fuse_all(rt.alloc(), &read_case(rt.alloc(), text.as_str())?)?;
    let (runs, losses, refused) = (counts.runs, counts.losses, counts.refused);
    println!(rt; "fuses {file}: {runs} runs, {losses} lost a drive, {refused} moves refused")?;
    Ok(())
}

fn report_headers(rt: &HostRuntime, line: &str, counts: &Headers) -> Result<(), Trouble> {
    let (scans, maps, bad) = (counts.scans, counts.maps, counts.bad);
    let (wrong_slots, twice) = (counts.wrong_slots, counts.twice);
    println!(rt;
        "{line}: {scans} scans, {maps} maps, {bad} bad headers, {wrong_slots} wrong slots, {twice} twice"
    )?;
    Ok(())
}

fn answer_mutants(
    rt: &HostRuntime,
    seed: u32,
    count: u32,
    file: Option<&str>,
) -> Result<(), Trouble> {
    let file = named(file)?;
    let script = fs::read(rt, file)?;
    let counts = run_mutants(rt.alloc(), seed, count, &script)?;
    let (scripts, whole, faults) = (counts.scripts, counts.whole, counts.faults);
    println!(rt; "mutants {file}: {scripts} scripts, {whole} to their end, {faults} to a fault")?;
    Ok(())
}

fn print_mutant(
    rt: &HostRuntime,
    seed: u32,
    count: u32,
    file: Option<&str>,
) -> Result<(), Trouble> {
    let script = fs::read(rt, named(file)?)?;
    let changed = mutant(rt.alloc(), seed, count, &script)?;
    rt.stdout().write_all(&changed)?;
    Ok(())
}

fn answer_spellings(rt: &HostRuntime, file: Option<&str>) -> Result<(), Trouble> {
    let file = named(file)?;
    let text = fs::read_to_string(rt, file)?;
    let counts = spell_all(text.as_str())?;
    let (headers, bad) = (counts.headers, counts.bad);
    println!(rt; "spellings {file}: {headers} headers, {bad} bad")?;
    Ok(())
}

fn answer_restarts(rt: &HostRuntime, file: Option<&str>) -> Result<(), Trouble> {
    let file = named(file)?;
    let text = fs::read_to_string(rt, file)?;
    let counts = restart_all(rt.alloc(), text.as_str())?;
    let (rows, faults) = (counts.rows, counts.faults);
    println!(rt; "restarts {file}: {rows} restarts, {faults} faults")?;
    if let Some(row) = counts.differs {
        println!(rt; "restarts {file}: row {row} differs")?;
        return Err(Trouble::Wrong);
    }
    Ok(())
}

fn answer_edges(
    rt: &HostRuntime,
    script: Option<&str>,
    answers: Option<&str>,
) -> Result<(), Trouble> {
    let script = named(script)?;
    let bytes = fs::read(rt, script)?;
    let expected = fs::read(rt, named(answers)?)?;
    let counts = break_off(rt.alloc(), &bytes, &expected)?;
    let (readers, writers) = (counts.readers, counts.writers);
    println!(rt; "edges {script}: {readers} broken readers, {writers} broken writers")?;
    Ok(())
}
