//! Rounds.
ghost use Rattle.std.specs.Prelude.{◌≡◌, ◌≤◌, ℕ, ◌<◌, ◌*◌, ◌^◌, length, slice_index_or, IfOk};
ghost use Rattle.std.specs.List.{All};
ghost use Rattle.worker_rounds.specs.Rounds.{AreFiled, IsFiled, job_at, place_of};

use crate::gate::Gate;
use crate::work::Work;
use memory::Memory;
use std::alloc::Global;
use std::thread;
use std::thread::Threads;

/// What is filed for a job: nothing yet, its answer, or that there was no memory for it.
type Slot<A> = Option<Result<A, Memory>>;

/// Answers jobs by so many workers, and gives the answers in the order of the jobs, as one thread would. Job k goes to
/// worker k modulo the number of workers, and each worker takes its jobs in order. No worker has no job, and with one
/// worker, or where no thread can be made, all is done in this thread.
///
/// Each job is answered between the gate's `begin` and `done` with its number. `Err` is want of memory, here or for a job.
pub fn run_round<R: Threads + Sync, W: Work, G: Gate>(
    rt: &R,
    alloc: Global,
    work: &W,
    jobs: &[W::Job],
    workers: u8,
    gate: &G,
) -> Result<Vec<W::Answer>, Memory>
    requires some { 1 ≤ workers }
    requires few { workers ≤ 16 }
    requires can { All (W.can work.now) jobs.now }
    ensures count { IfOk result (λ answers. length answers.items ≡ length jobs.now) }
    ensures each { IfOk result (λ answers. (k : ℕ) (j : W.Job) (a : W.Answer) → k < length jobs.now → W.gives work.now (slice_index_or jobs.now k j) (slice_index_or answers.items k a)) }
{
    if jobs.is_empty() {
        return Ok(Vec::new(alloc));
    }
    let workers = usize::from(workers).min(jobs.len());
    let turns = turns_of(jobs.len(), workers);
    let Some(places) = workers.checked_mul(turns) else {
        return Err(Memory);
    };
    let mut slots = empty_slots::<W>(alloc, places)?;
    file_answers(rt, work, jobs, slots.as_mut_slice(), workers, turns, gate);
    in_order(alloc, work, jobs, slots, workers, turns)
}

/// The most jobs that one of so many workers gets.
fn turns_of(jobs: usize, workers: usize) -> usize
    requires { 0 < workers }
    ensures { jobs ≤ workers * result }
{
    jobs.div_ceil(workers)
}

/// Has so many workers answer the jobs, and files each answer at its place.
fn file_answers<R: Threads + Sync, W: Work, G: Gate>(
    rt: &R,
    work: &W,
    jobs: &[W::Job],
    slots: &mut [Slot<W::Answer>],
    workers: usize,
    turns: usize,
    gate: &G,
)
    requires some { 0 < workers }
    requires all { length jobs.now ≤ workers * turns }
    requires fits { workers * turns < 2 ^ 64 }
    requires places { length slots.old ≡ workers * turns }
    requires can { All (W.can work.now) jobs.now }
    ensures places { length slots.new ≡ length slots.old }
    ensures filed { AreFiled (W.gives work.now) jobs.now workers turns slots.new }
{
    thread::for_each_mut(
        rt,
        slots,
        workers,
        &|place, slot: &mut Slot<W::Answer>|
            requires { (place < workers * turns) × (workers * turns < 2 ^ 64) × All (W.can work.now) jobs.now }
            ensures { (k : ℕ) → job_at place workers turns ≡ k → k < length jobs.entry.now → IsFiled (W.gives work.entry.now) jobs.entry.now k slot.exit.now }
        {
            let job = job_of(place, workers, turns);
            if job < jobs.len() {
                *slot = Some(answer_between(work, jobs, gate, job));
            }
        },
    );
}

/// The answers that were filed for the jobs, in the order of the jobs.
fn in_order<W: Work>(
    alloc: Global,
    work: &W,
    jobs: &[W::Job],
    mut slots: Vec<Slot<W::Answer>>,
    workers: usize,
    turns: usize,
) -> Result<Vec<W::Answer>, Memory>
    requires some { 0 < workers }
    requires all { length jobs.now ≤ workers * turns }
    requires places { length slots.items ≡ workers * turns }
    requires filed { AreFiled (W.gives work.now) jobs.now workers turns slots.items }
    ensures count { IfOk result (λ answers. length answers.items ≡ length jobs.now) }
    ensures each { IfOk result (λ answers. (k : ℕ) (j : W.Job) (a : W.Answer) → k < length jobs.now → W.gives work.now (slice_index_or jobs.now k j) (slice_index_or answers.items k a)) }
{
    let mut answers = Vec::with_capacity(alloc, jobs.len())?;
    for job in 0..jobs.len() {
        let Some(answer) = slots[place_of(job, workers, turns)].take() else {
            unreachable!()
        };
        answers.push(answer?)?;
    }
    Ok(answers)
}

/// The place of the answer to a job.
fn place_of(job: usize, workers: usize, turns: usize) -> usize
    requires some { 0 < workers }
    requires within { job < workers * turns }
    requires fits { workers * turns < 2 ^ 64 }
    ensures value { result ≡ place_of job workers turns }
    ensures within { result < workers * turns }
    ensures back { job_at result workers turns ≡ job }
{
    job % workers * turns + job / workers
}

/// The job whose answer is filed at a place.
fn job_of(place: usize, workers: usize, turns: usize) -> usize
    requires within { place < workers * turns }
    requires fits { workers * turns < 2 ^ 64 }
    ensures { result ≡ job_at place workers turns }
{
    place % turns * workers + place / turns
}

/// So many places where nothing is filed.
fn empty_slots<W: Work>(alloc: Global, places: usize) -> Result<Vec<Slot<W::Answer>>, Memory>
    ensures { IfOk result (λ slots. length slots.items ≡ places) }
{
    let mut slots = Vec::with_capacity(alloc, places)?;
    for _ in 0..places {
        slots.push(None)?;
    }
    Ok(slots)
}

/// Answers one job, and tells the gate.
fn answer_between<W: Work, G: Gate>(
    work: &W,
    jobs: &[W::Job],
    gate: &G,
    job: usize,
) -> Result<W::Answer, Memory>
    requires within { job < length jobs.now }
    requires can { All (W.can work.now) jobs.now }
    ensures { IfOk result (λ a. (d : W.Job) → W.gives work.now (slice_index_or jobs.now job d) a) }
{
    gate.begin(job);
    let answer = work.answer(&jobs[job]);
    gate.done(job);
    answer
}
