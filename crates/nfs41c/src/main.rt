//! The program: it hands its words, its input and output, TCP and the clock to `run`, prints the fault and ends with the status.
#![tactic(auto)]

use n41_link::{Input, MachineClock, Output, TcpDialer, TcpHouse};
use n41_run::{RunFault, run};
use std::process::ExitCode;
use std::{env, io};

/// The words of the command line behind the program's name.
fn words_of(rt: &HostRuntime) -> io::Result<Vec<String>> {
    let mut words = Vec::new(rt.alloc());
    for word in env::args(rt)?.skip(1) {
        words.push(word)?;
    }
    Ok(words)
}

fn main(rt: HostRuntime) -> ExitCode {
    let Ok(words) = words_of(&rt) else {
        let _ = eprintln!(rt; "{}", RunFault::NoMemory);
        return ExitCode::from(RunFault::NoMemory.status());
    };
    let mut source = Input::new(rt.reader());
    let mut sink = Output::new(io::writer(&rt));
    let finish = run(
        &rt,
        rt.alloc(),
        &words,
        &mut source,
        &mut sink,
        TcpDialer::new(&rt),
        TcpHouse::new(&rt),
        MachineClock::new(&rt),
    );
    if let Some(fault) = finish.fault {
        let _ = eprintln!(rt; "{fault}");
    }
    ExitCode::from(finish.status)
}
