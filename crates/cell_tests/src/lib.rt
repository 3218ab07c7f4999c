// Scripts of cells and of boxed units against the results that a model of its own gave.
#![tactic(auto)]

pub mod table;

#[cfg(test)]
mod tests {
    use crate::table::*;
    use script::{Console, feed};
    use std::alloc::Global;
    use std::process::Abort;

    // A line `N: RESULT`, also with an explanation in parentheses behind it.
    fn is_result(line: &[u8], numbered: &[u8]) -> bool {
        line.strip_prefix(numbered)
            .is_some_and(|rest| rest.is_empty() || rest.starts_with(b" ("))
    }

    // Each line of the script that names a result gives it, under its number, and no other line gives one.
    fn run(rt: &impl Abort, heap: Global, script: &str) {
        let mut console = Console::new();
        let mut out: Vec<u8> = Vec::new(heap);
        assert!(rt; feed(&mut console, heap, script.as_bytes(), &mut out).is_ok());
        let mut given = out
            .split(|b| *b == b'\n')
            .filter(|line| line.first().is_some_and(u8::is_ascii_digit));
        for (i, line) in script.lines().enumerate() {
            if let Some((_, wanted)) = line.split_once("#= ") {
                let numbered = format!(in heap; "{}: {}", i + 1, wanted).expect(rt, "no memory");
                let is_given = given
                    .next()
                    .is_some_and(|line| is_result(line, numbered.as_bytes()));
                assert!(rt; is_given, "{}", line);
            }
        }
        assert!(rt; given.next().is_none());
    }

    fn run_all(rt: &impl Abort, heap: Global, scripts: &[&str]) {
        for script in scripts {
            run(rt, heap, script);
        }
    }

    #[test]
    fn sendings(rt: HostRuntime) {
        run_all(&rt, rt.alloc(), &SENDINGS);
    }

    #[test]
    fn answers(rt: HostRuntime) {
        run_all(&rt, rt.alloc(), &ANSWERS);
    }

    #[test]
    fn making(rt: HostRuntime) {
        run_all(&rt, rt.alloc(), &MAKING);
    }

    #[test]
    fn refusals(rt: HostRuntime) {
        run_all(&rt, rt.alloc(), &REFUSALS);
    }

    #[test]
    fn senders(rt: HostRuntime) {
        run_all(&rt, rt.alloc(), &SENDERS);
    }

    #[test]
    fn queues(rt: HostRuntime) {
        run_all(&rt, rt.alloc(), &QUEUES);
    }

    #[test]
    fn transactions(rt: HostRuntime) {
        run_all(&rt, rt.alloc(), &TRANSACTIONS);
    }

    #[test]
    fn modes(rt: HostRuntime) {
        run_all(&rt, rt.alloc(), &MODES);
    }

    #[test]
    fn boxed(rt: HostRuntime) {
        run_all(&rt, rt.alloc(), &BOXED);
    }

    #[test]
    fn wandering(rt: HostRuntime) {
        run_all(&rt, rt.alloc(), &WANDERING);
    }
}
