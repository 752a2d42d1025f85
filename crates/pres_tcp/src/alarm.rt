//! What a stream and its bell share.

use mio::Waker;
use pres_hub::Bell;
use std::alloc::{AllocError, Global};
use std::sync::Arc;
use std::sync::atomic::{AtomicBool, AtomicUsize, Ordering};

/// The stream's side stores `sleeps` and then looks at `rings`, the bell's side adds to `rings` and then
/// looks at `sleeps`: so one of the two sees the other, and no ring is lost.
#[derive(Drop)]
pub(crate) struct Alarm {
    waker: Waker,
    sleeps: AtomicBool,
    // How often the bell was rung since the stream heard it last.
    rings: AtomicUsize,
    // Whether the bell hangs at the hub.
    hangs: AtomicBool,
}

impl Alarm {
    pub(crate) fn new(waker: Waker) -> Alarm {
        Alarm {
            waker,
            sleeps: AtomicBool::new(false),
            rings: AtomicUsize::new(0),
            hangs: AtomicBool::new(false),
        }
    }

    /// Before a wait: says that the stream sleeps from now on, and how often the bell was rung. If it
    /// was, the stream doesn't sleep, as there is nothing to wait for.
    pub(crate) fn fall_asleep(&self) -> usize {
        self.sleeps.store(true, Ordering::SeqCst);
        let rings = self.rings.swap(0, Ordering::SeqCst);
        if rings > 0 {
            self.sleeps.store(false, Ordering::SeqCst);
        }
        rings
    }

    /// After a wait: how often the bell was rung.
    pub(crate) fn wake_up(&self) -> usize {
        self.sleeps.store(false, Ordering::SeqCst);
        self.rings.swap(0, Ordering::SeqCst)
    }

    /// Whether the bell hangs at the hub, which rings it whenever something is put for the stream.
    pub(crate) fn hangs(&self) -> bool {
        self.hangs.load(Ordering::SeqCst)
    }
}

/// Ends the wait of one stream.
#[derive(Drop)]
pub struct StreamBell {
    alarm: Arc<Alarm, Global>,
}

impl StreamBell {
    pub(crate) fn of(alarm: &Arc<Alarm, Global>) -> Result<StreamBell, AllocError> {
        Ok(StreamBell {
            alarm: Arc::try_clone(alarm)?,
        })
    }
}

impl Clone for StreamBell {
    fn clone(&self) -> Result<StreamBell, AllocError> {
        StreamBell::of(&self.alarm)
    }
}

impl Bell for StreamBell {
    fn hang(&self) {
        self.alarm.hangs.store(true, Ordering::SeqCst);
    }

    // If the wake fails the stream sees it when its wait has timed out.
    fn ring(&self) {
        self.alarm.rings.fetch_add(1, Ordering::SeqCst);
        if self.alarm.sleeps.swap(false, Ordering::SeqCst) {
            let _ = self.alarm.waker.wake();
        }
    }
}
