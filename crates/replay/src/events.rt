// The event that 32 bytes stand for.
//
// Promises: `read_event` reads any bytes (specs/Wire.antt).
ghost use Rattle.std.specs.Prelude.{◌≡◌};
ghost use Rattle.replay.specs.Wire.{event_at};

use event_rules::{Event, Frame};

// The event that bytes stand for: numbers low byte first, the last eight bytes are not looked at.
pub(crate) fn read_event(event: &[u8; 32]) -> Event
    ensures { result ≡ event_at event.now }
{
    let [
        kind,
        flags,
        channel,
        dlc,
        i0,
        i1,
        i2,
        i3,
        t0,
        t1,
        t2,
        t3,
        t4,
        t5,
        t6,
        t7,
        d0,
        d1,
        d2,
        d3,
        d4,
        d5,
        d6,
        d7,
        ..
    ] = *event;
    let time = u64::from_le_bytes([t0, t1, t2, t3, t4, t5, t6, t7]);
    if kind == 0 {
        return Event::Tick(time);
    }
    Event::Frame(Frame {
        channel: u32::from(channel),
        time,
        error: flags % 2 == 1,
        remote: flags / 2 % 2 == 1,
        ext: flags / 4 % 2 == 1,
        id: u32::from_le_bytes([i0, i1, i2, i3]),
        dlc: u32::from(dlc),
        bytes: [d0, d1, d2, d3, d4, d5, d6, d7],
    })
}
