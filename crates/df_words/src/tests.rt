// Command lines, and the word at fault of words that are none.
use super::*;
use std::alloc::{AllocError, Global};
use std::test::Fail;

// What the words are read as.
fn read(alloc: Global, words: &[&str]) -> Result<Result<Command, UsageFault>, AllocError> {
    let mut owned = Vec::new(alloc);
    for word in words {
        owned.push(String::from_str(alloc, word)?)?;
    }
    Ok(read_words(owned.as_slice()))
}

#[test]
fn reads_each_command(rt: HostRuntime) -> Result<(), Fail> {
    for (words, wanted) in [
        (&["show"][..], Command::Show),
        (&["table"][..], Command::Table),
        (&["verify"][..], Command::Verify),
        (&["orbits"][..], Command::Orbits),
        (&["matrix"][..], Command::Matrix),
        (&["check"][..], Command::Check),
    ] {
        assert_eq!(rt; read(rt.alloc(), words)?, Ok(wanted));
    }
    Ok(())
}

#[test]
fn reads_the_options_of_a_search_in_any_order(rt: HostRuntime) -> Result<(), Fail> {
    for (words, budget, log, blocks) in [
        (&["solve"][..], 1_000_000_000, false, false),
        (&["solve", "--log"][..], 1_000_000_000, true, false),
        (&["solve", "--blocks"][..], 1_000_000_000, false, true),
        (&["solve", "--budget", "1"][..], 1, false, false),
        (&["solve", "--budget", "007"][..], 7, false, false),
        (
            &["solve", "--budget", "1000000000000000"][..],
            1_000_000_000_000_000,
            false,
            false,
        ),
        (
            &["solve", "--blocks", "--budget", "5", "--log"][..],
            5,
            true,
            true,
        ),
        (
            &["solve", "--log", "--blocks", "--budget", "5"][..],
            5,
            true,
            true,
        ),
    ] {
        let options = Options {
            budget,
            log,
            blocks,
            json: false,
        };
        assert_eq!(rt; read(rt.alloc(), words)?, Ok(Command::Solve(options)));
    }
    Ok(())
}

#[test]
fn reads_the_options_of_a_search_that_goes_on(rt: HostRuntime) -> Result<(), Fail> {
    for (words, budget, log, blocks) in [
        (&["resume"][..], 1_000_000_000, false, false),
        (&["resume", "--log"][..], 1_000_000_000, true, false),
        (&["resume", "--budget", "1"][..], 1, false, false),
        (
            &["resume", "--blocks", "--budget", "1000000000000000"][..],
            1_000_000_000_000_000,
            false,
            true,
        ),
        (
            &["resume", "--budget", "05", "--blocks", "--log"][..],
            5,
            true,
            true,
        ),
    ] {
        let options = Options {
            budget,
            log,
            blocks,
            json: false,
        };
        assert_eq!(rt; read(rt.alloc(), words)?, Ok(Command::Resume(options)));
    }
    Ok(())
}

#[test]
fn reads_the_options_of_a_listing_in_any_order(rt: HostRuntime) -> Result<(), Fail> {
    for (words, budget, blocks) in [
        (&["solve", "--json"][..], 1_000_000_000, false),
        (&["solve", "--json", "--blocks"][..], 1_000_000_000, true),
        (&["solve", "--budget", "3", "--json"][..], 3, false),
        (
            &["solve", "--blocks", "--json", "--budget", "03"][..],
            3,
            true,
        ),
    ] {
        let options = Options {
            budget,
            log: false,
            blocks,
            json: true,
        };
        assert_eq!(rt; read(rt.alloc(), words)?, Ok(Command::Solve(options)));
    }
    Ok(())
}

#[test]
fn reads_the_number_of_a_workload(rt: HostRuntime) -> Result<(), Fail> {
    for (words, number) in [
        (&["workload", "1"][..], 1),
        (&["workload", "7"][..], 7),
        (&["workload", "020"][..], 20),
    ] {
        assert_eq!(rt; read(rt.alloc(), words)?, Ok(Command::Workload(number)));
    }
    Ok(())
}

#[test]
fn names_the_first_word_at_fault(rt: HostRuntime) -> Result<(), Fail> {
    for (words, word) in [
        (&[][..], 1),
        (&[""][..], 1),
        (&["Verify"][..], 1),
        (&["verif"][..], 1),
        (&["verify "][..], 1),
        (&["--help"][..], 1),
        (&["--version"][..], 1),
        (&["--log"][..], 1),
        (&["solved"][..], 1),
        (&["resumed"][..], 1),
        (&["workloads", "7"][..], 1),
        (&["7", "workload"][..], 1),
        (&["workload"][..], 2),
        (&["workload", "0"][..], 2),
        (&["workload", "21"][..], 2),
        (&["workload", "257"][..], 2),
        (&["workload", "seven"][..], 2),
        (&["workload", "--log"][..], 2),
        (&["workload", "18446744073709551617"][..], 2),
        (&["workload", "7", "7"][..], 3),
        (&["workload", "7", "--log"][..], 3),
        (&["Check"][..], 1),
        (&["checks"][..], 1),
        (&["--log", "check"][..], 1),
        (&["check", "check"][..], 2),
        (&["check", "verify"][..], 2),
        (&["check", "--log"][..], 2),
        (&["check", "--budget", "1"][..], 2),
        (&["check", "--json"][..], 2),
        (&["check", "7"][..], 2),
        (&["check", ""][..], 2),
        (&["verify", "verify"][..], 2),
        (&["show", "table"][..], 2),
        (&["verify", "--log", "x"][..], 2),
        (&["orbits", "--budget", "1"][..], 2),
        (&["matrix", "7"][..], 2),
        (&["table", ""][..], 2),
        (&["solve", "log"][..], 2),
        (&["solve", "json"][..], 2),
        (&["solve", "--JSON"][..], 2),
        (&["solve", "--json=1"][..], 2),
        (&["solve", "--budget"][..], 3),
        (&["solve", "--budget", "0"][..], 3),
        (&["solve", "--budget", "-1"][..], 3),
        (&["solve", "--budget", "1000000000000001"][..], 3),
        (&["solve", "--budget", "--log"][..], 3),
        (&["solve", "--log", "--log"][..], 3),
        (&["solve", "--log", "--json"][..], 3),
        (&["solve", "--json", "--log"][..], 3),
        (&["solve", "--json", "--json"][..], 3),
        (&["solve", "--json", "--budget"][..], 4),
        (&["solve", "--json", "--budget", "0"][..], 4),
        (&["solve", "--json", "--budget", "1", "--log"][..], 5),
        (&["solve", "--json", "--blocks", "--json"][..], 4),
        (&["solve", "--blocks", "--log", "--blocks"][..], 4),
        (&["solve", "--budget", "2", "--budget", "2"][..], 4),
        (&["solve", "--budget", "2", "3"][..], 4),
        (&["resume", "solve"][..], 2),
        (&["resume", "--json"][..], 2),
        (&["resume", "--log", "--json"][..], 3),
        (&["resume", "--budget", "1", "--json"][..], 4),
        (&["verify", "--json"][..], 2),
        (&["workload", "7", "--json"][..], 3),
        (&["resume", "--budget", "0"][..], 3),
        (&["resume", "--budget", "1000000000000001"][..], 3),
        (&["resume", "--log", "--blocks", "--log"][..], 4),
    ] {
        assert_eq!(rt; read(rt.alloc(), words)?, Err(UsageFault { word }));
    }
    Ok(())
}
