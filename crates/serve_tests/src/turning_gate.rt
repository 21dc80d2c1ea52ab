// A gate that holds the result of version 2 until that of version 3 has passed.
ghost use Rattle.std.specs.Prelude.{⊤};

use jobs::Gate;
use std::alloc::{AllocError, Global};
use std::sync::atomic::{AtomicBool, Ordering};
use std::sync::{Arc, Wait};
use std::thread;

/// Lets version 2 pass once version 3 has passed, which sets `third`, and every other version at once;
/// version 2 then sets `turned`. After 100,000,000 turns of its loop it passes all the same and sets
/// nothing.
#[derive(Drop)]
pub struct TurningGate {
    pub third: Arc<AtomicBool, Global>,
    pub turned: Arc<AtomicBool, Global>,
}

impl Clone for TurningGate {
    fn clone(&self) -> Result<TurningGate, AllocError> {
        Ok(TurningGate {
            third: Arc::try_clone(&self.third)?,
            turned: Arc::try_clone(&self.turned)?,
        })
    }
}

impl Gate for TurningGate {
    ghost passed = { λ gate ver. ⊤ };

    fn pass<R: Wait>(&self, _rt: &R, ver: u64) {
        if ver == 3 {
            self.third.store(true, Ordering::SeqCst);
        }
        if ver != 2 {
            return;
        }
        for _ in 0..100_000_000u32 {
            if self.third.load(Ordering::SeqCst) {
                self.turned.store(true, Ordering::SeqCst);
                return;
            }
            thread::yield_now();
        }
    }
}
