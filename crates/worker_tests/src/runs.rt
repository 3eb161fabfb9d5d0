//! Runs of workers.
use crate::relay::run_relay;
use std::test::Fail;

// Only one runner can go at a time. So each worker but one sleeps, is woken by each hand-over, and sleeps again.
#[test]
fn who_sleeps_is_woken_each_time(rt: HostRuntime) -> Result<(), Fail> {
    for (workers, runners, often) in [
        (1, 3, 10_000),
        (2, 2, 10_000),
        (4, 4, 10_000),
        (3, 7, 2_000),
        (16, 16, 500),
        (16, 41, 100),
    ] {
        let (back, handed) = run_relay(&rt, workers, runners, often);
        assert_eq!(rt;
            (back, handed),
            (runners as usize, often * u64::from(runners))
        );
    }
    Ok(())
}

// No task, a task that is over at once, and more workers than tasks.
#[test]
fn idle_workers_end(rt: HostRuntime) -> Result<(), Fail> {
    for (workers, runners, often) in [(1, 0, 1), (4, 0, 1), (4, 1, 0), (16, 1, 100)] {
        let (back, handed) = run_relay(&rt, workers, runners, often);
        assert_eq!(rt;
            (back, handed),
            (runners as usize, often * u64::from(runners))
        );
    }
    Ok(())
}
