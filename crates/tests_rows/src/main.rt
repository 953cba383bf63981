//! The rows of the program: it goes over the files of cases that its words name, calls `gillian` for each case, and
//! writes a line for each file and lines for each case whose answer isn't the one that the file wants.
#![tactic(auto)]

mod calling;

use calling::{agrees, call};
use row_cases::{Case, Cases};
use std::process::ExitCode;
use std::{env, fs, io};

/// How the cases of the files went.
#[derive(Clone, Copy, Debug, Default)]
struct Count {
    agree: usize,
    differ: usize,
}

impl Count {
    const ONE_DIFFERS: Count = Count {
        agree: 0,
        differ: 1,
    };
}

fn main(rt: HostRuntime) -> io::Result<ExitCode> {
    let mut all = Count::default();
    for (place, word) in env::args(&rt)?.enumerate() {
        if place > 0 {
            let count = compare_file(&rt, word.as_str())?;
            all.agree = all.agree.saturating_add(count.agree);
            all.differ = all.differ.saturating_add(count.differ);
        }
    }
    if all.agree == 0 && all.differ == 0 {
        println!(rt; "no case")?;
    }
    Ok(ExitCode::from(if all.agree > 0 && all.differ == 0 {
        0
    } else {
        1
    }))
}

/// The name of the file without its folders and its ending.
fn title(path: &str) -> &str {
    let file = path.rsplit('/').next().unwrap_or(path);
    file.strip_suffix(".toml").unwrap_or(file)
}

/// Compares the cases of a file, and writes how many agree. A file that can't be read, or that holds no cases, is a
/// difference.
fn compare_file(rt: &HostRuntime, path: &str) -> io::Result<Count> {
    let title = title(path);
    match fs::read_to_string(rt, path) {
        Ok(text) => match toml::from_str::<Cases>(rt.alloc(), text.as_str()) {
            Ok(cases) => compare_all(rt, title, &cases.with_many(rt.alloc())?),
            Err(fault) => {
                println!(rt; "{title}: malformed: {fault}")?;
                Ok(Count::ONE_DIFFERS)
            }
        },
        Err(fault) => {
            println!(rt; "{title}: not read: {fault}")?;
            Ok(Count::ONE_DIFFERS)
        }
    }
}

/// Compares cases in order, and writes how many agree and how many differ.
fn compare_all(rt: &HostRuntime, title: &str, cases: &[Case]) -> io::Result<Count> {
    let mut count = Count::default();
    for case in cases {
        if compare(rt, title, case)? {
            count.agree = count.agree.saturating_add(1);
        } else {
            count.differ = count.differ.saturating_add(1);
        }
    }
    if cases.is_empty() {
        println!(rt; "{title}: no case")?;
        return Ok(Count::ONE_DIFFERS);
    }
    if count.differ == 0 {
        println!(rt; "{title}: {} agree", count.agree)?;
    } else {
        println!(rt; "{title}: {} agree, {} differ", count.agree, count.differ)?;
    }
    Ok(count)
}

/// Whether the program answers the case as it must. If it doesn't, writes what was expected and what came.
fn compare(rt: &HostRuntime, title: &str, case: &Case) -> io::Result<bool> {
    match call(rt.alloc(), case) {
        Ok(answer) => {
            if agrees(case, &answer) {
                return Ok(true);
            }
            let came = String::from_utf8_lossy(rt.alloc(), answer.output.as_slice())?;
            println!(rt; "{title}: {}", case.name)?;
            println!(rt; "  expected status {}, output {}", case.status, case.output)?;
            println!(rt; "  came     status {}, output {came:?}", answer.status)?;
        }
        Err(fault) => println!(rt; "{title}: {}: {fault}", case.name)?,
    }
    Ok(false)
}
