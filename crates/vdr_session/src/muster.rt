// Whether the host grants a run all its threads at once.
//
// A joined call whose thread is refused runs behind the other one. Then the recorder's loop would come behind the captures,
// and a port whose capture waits for another would never be read. So before a run begins as many workers meet as it will
// have: each waits until all have come, for two seconds. What is granted then is granted to the run too, but where another
// process takes it meanwhile.
use std::alloc::Global;
use std::sync::Wait;
use std::sync::atomic::{AtomicU64, Ordering};
use std::thread;
use std::thread::Threads;
use std::time::Duration;
use vdr_intake::NoMemory;

/// The workers of a run besides those of its desks: the recorder's loop, and the captures of 16 groups.
const WORKERS: usize = 17;

/// How many milliseconds a worker waits for the others.
const PATIENCE: u64 = 2_000;

// Where the workers meet.
#[derive(Drop)]
struct Meeting {
    // How many have come.
    come: AtomicU64,
    // Whether one waited in vain: then no other waits.
    late: AtomicU64,
}

impl Meeting {
    fn new() -> Meeting {
        Meeting {
            come: AtomicU64::new(0),
            late: AtomicU64::new(0),
        }
    }

    // Comes, and waits until so many have. Says whether they have.
    fn meet<R: Wait>(&self, rt: &R, all: u64) -> bool {
        self.come.fetch_add(1, Ordering::SeqCst);
        self.come.wake_all();
        for _ in 0..PATIENCE {
            let come = self.come.load(Ordering::SeqCst);
            if come >= all {
                return true;
            }
            if self.late.load(Ordering::SeqCst) != 0 {
                return false;
            }
            self.come
                .park_timeout(rt, (come & 0xFFFF_FFFF) as u32, Duration::from_millis(1));
        }
        self.late.store(1, Ordering::SeqCst);
        false
    }
}

/// Whether the host grants the threads of a run with so many desks, all at once.
pub(crate) fn grants_threads<R: Threads + Wait + Sync>(
    rt: &R,
    alloc: Global,
    desks: usize,
) -> Result<bool, NoMemory> {
    let workers = desks.max(1).saturating_add(WORKERS);
    let mut came = Vec::new(alloc);
    for _ in 0..workers {
        came.push(false).map_err(|_| NoMemory)?;
    }
    let meeting = Meeting::new();
    let all = workers as u64;
    thread::for_each_mut(
        rt,
        &mut came,
        workers,
        &|_: usize, has: &mut bool| {
            *has = meeting.meet(rt, all);
        },
    );
    Ok(came.iter().all(|has| *has))
}
