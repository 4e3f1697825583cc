//! Two stages, and what they send of some bytes, worked out by hand.

ghost use Rattle.std.specs.Prelude.{◌≡◌, ◌+◌, ◌/◌, ◌%◌, ◌==◌, [], ◌∷◌, if◌then◌else◌};

use dds_base::memory::Memory;
use dds_stage::pump::Pump;
use dds_stage::queue::StageQueue;
use dds_stage::stage::Stage;
use std::alloc::Global;

/// Sends a byte's upper half and then its lower half.
#[derive(Drop)]
struct Halves;

impl Stage for Halves {
    type Event = u8;

    type Sent = u8;

    ghost sends = { λ _ byte _ sent. sent ≡ byte / 16 ∷ byte % 16 ∷ [] };

    ghost MOST = { 2 };

    const MOST: usize = 2;

    fn upcall(&mut self, byte: u8, next: &mut StageQueue<u8>) -> Result<(), Memory> {
        next.push(byte / 16);
        next.push(byte % 16);
        Ok(())
    }
}

/// Sends the sum of all numbers so far, but nothing of a 0.
#[derive(Drop)]
struct Sums {
    sum: u8,
}

impl Stage for Sums {
    type Event = u8;

    type Sent = u8;

    ghost sends = { λ old number new sent. (new.sum ≡ (old.sum + number) % 256) × (sent ≡ (if number == 0 then [] else new.sum ∷ [])) };

    ghost MOST = { 1 };

    const MOST: usize = 1;

    fn upcall(&mut self, number: u8, next: &mut StageQueue<u8>) -> Result<(), Memory> {
        self.sum = self.sum.wrapping_add(number);
        if number > 0 {
            next.push(self.sum);
        }
        Ok(())
    }
}

/// What a pump of both sends of the bytes, behind a 9. The sum begins with 250.
fn sent(alloc: Global, bytes: &[u8]) -> Result<Vec<u8>, Memory> {
    let mut pump = Pump::new(alloc, Halves, Sums { sum: 250 })?;
    let mut out = Vec::new(alloc);
    out.push(9)?;
    for byte in bytes {
        pump.drain(*byte, &mut out)?;
    }
    Ok(out)
}

#[test]
fn a_pump_sends_what_the_second_stage_sends(rt: HostRuntime) -> Result<(), Memory> {
    let out = sent(rt.alloc(), &[0x12, 0x34, 0x05, 0x00])?;
    assert_eq!(rt; out.as_slice(), [9, 251, 253, 0, 4, 9].as_slice());
    Ok(())
}
