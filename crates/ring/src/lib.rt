//! A queue over memory that the caller lends.
#![tactic(auto)]

mod queue;

pub use queue::calls::Full;
pub use queue::{Iter, Queue};

#[cfg(test)]
mod tests {
    use super::*;
    use std::process::Abort;
    use std::test::Fail;

    #[derive(Clone, Copy, PartialEq, Eq, Debug, Drop)]
    struct Trial {
        line: u32,
        by: u32,
    }

    fn puts(queue: &mut Queue<Trial>, trials: &[Trial]) -> Result<(), Full> {
        for trial in trials {
            queue.put(*trial)?;
        }
        Ok(())
    }

    // The trials in order, and then none.
    fn takes(rt: &impl Abort, queue: &mut Queue<Trial>, trials: &[Trial]) {
        for trial in trials {
            assert_eq!(rt; queue.take(), Some(*trial));
        }
        assert_eq!(rt; queue.take(), None);
    }

    // The items as they are gone over, and then none.
    fn goes_over(rt: &impl Abort, queue: &Queue<Trial>, trials: &[Trial]) {
        let mut rest = queue.iter();
        for trial in trials {
            assert_eq!(rt; rest.next(), Some(*trial));
        }
        assert_eq!(rt; rest.next(), None);
    }

    // The second round begins at the last of three places.
    #[test]
    fn turns_round(rt: HostRuntime) -> Result<(), Fail> {
        let a = Trial { line: 1, by: 10 };
        let b = Trial { line: 2, by: 20 };
        let mut places = [a; 3];
        let mut queue = Queue::new(&mut places);
        puts(&mut queue, &[a, b])?;
        takes(&rt, &mut queue, &[a, b]);
        puts(&mut queue, &[b, a, a])?;
        assert_eq!(rt; queue.put(b), Err(Full));
        goes_over(&rt, &queue, &[b, a, a]);
        takes(&rt, &mut queue, &[b, a, a]);
        goes_over(&rt, &queue, &[]);
        Ok(())
    }
}
