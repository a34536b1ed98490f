//! Rounds over a small work, and a gate that shows two jobs begun at the same time.
use crate::{Gate, OpenGate, Work, run_round};
use memory::Memory;
use std::sync::atomic::{AtomicBool, Ordering};
use std::test::Fail;
use std::thread;

/// Adds a number to each job.
#[derive(Drop)]
struct Adding(u32);

impl Work for Adding {
    ghost use Rattle.std.specs.Prelude.{◌≡◌, ◌+◌, ⊤};

    type Job = u32;

    type Answer = u64;

    ghost can = { λ w j. ⊤ };

    ghost gives = { λ w j a. a ≡ w.0 + j };

    fn answer(&self, job: &u32) -> Result<u64, Memory> {
        Ok(u64::from(self.0) + u64::from(*job))
    }
}

#[test]
fn answers_stand_in_the_order_of_the_jobs(rt: HostRuntime) -> Result<(), Fail> {
    let work = Adding(10);
    let jobs = [3, 1, 4, 1, 5, 9, 2];
    for workers in 1..17 {
        let answers = run_round(&rt, rt.alloc(), &work, &jobs, workers, &OpenGate)?;
        assert_eq!(rt; answers.as_slice(), [13, 11, 14, 11, 15, 19, 12].as_slice());
    }
    let none = run_round(&rt, rt.alloc(), &work, &[], 4, &OpenGate)?;
    assert!(rt; none.is_empty());
    Ok(())
}

/// A gate at which job 0 waits until job 1 is done, so many turns at most.
#[derive(Drop)]
struct Waiting {
    done: AtomicBool,
    late: AtomicBool,
}

impl Gate for Waiting {
    fn begin(&self, job: usize) {
        if job != 0 {
            return;
        }
        for _ in 0..1_000_000u32 {
            if self.done.load(Ordering::SeqCst) {
                return;
            }
            thread::yield_now();
        }
        self.late.store(true, Ordering::SeqCst);
    }

    fn done(&self, job: usize) {
        if job == 1 {
            self.done.store(true, Ordering::SeqCst);
        }
    }
}

#[test]
fn two_workers_work_at_the_same_time(rt: HostRuntime) -> Result<(), Fail> {
    let gate = Waiting {
        done: AtomicBool::new(false),
        late: AtomicBool::new(false),
    };
    let answers = run_round(&rt, rt.alloc(), &Adding(1), &[7, 8], 2, &gate)?;
    assert_eq!(rt; answers.as_slice(), [8, 9].as_slice());
    assert!(rt; !gate.late.load(Ordering::SeqCst));
    Ok(())
}
