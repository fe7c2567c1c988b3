// A command to many stations: to each whose bit is set in a pattern, their answers joined by OR. And commands to the controller itself.
ghost use Rattle.std.specs.Prelude.{◌≡◌, ◌≤◌};
ghost use Rattle.dataway.specs.Crate.{FitCrate};
ghost use Rattle.dataway.specs.Addressed.{Commanded, joined, many_of, common_of, internal_of};

use crate::control::{clear, initialize, load_stations, set_inhibit};
use crate::{INHIBIT, command};
use blocks::STATIONS;
use station::{NOT_ACCEPTED, Reply};
use word24::word::bit;

// The pattern of all 23 stations.
pub const ALL_STATIONS: u32 = (1 << STATIONS) - 1;

// The controller's answer where Q is not given.
const OBEYED: Reply = Reply { x: 1, q: 0, r: 0 };

// X, Q and R each the OR of two.
fn join(p: Reply, t: Reply) -> Reply
    ensures { result ≡ joined p t }
{
    Reply {
        x: p.x | t.x,
        q: p.q | t.q,
        r: p.r | t.r,
    }
}

// The command to every station of the pattern.
pub fn command_many(memory: &mut [u32], pattern: u32, a: u32, f: u32, w: u32) -> Reply
    requires fit_crate { FitCrate memory.old }
    requires fields { (a ≤ 15) × (f ≤ 31) × (w ≤ 16777215) }
    ensures { many_of memory.old pattern a f w ≡ record { memory = memory.new; reply = result } }
{
    let mut reply = NOT_ACCEPTED;
    for n in 1..1 + STATIONS as u32 {
        if bit(pattern, n - 1) == 1 {
            reply = join(reply, command(memory, n, a, f, w));
        }
    }
    reply
}

// N28: Z at A8 and C at A9, both F26.
#[tactic(auto, unfolding(crate::specs::Addressed::common_of))]
pub fn common(memory: &mut [u32], a: u32, f: u32) -> Reply
    requires { FitCrate memory.old }
    ensures { common_of memory.old a f ≡ record { memory = memory.new; reply = result } }
{
    match (f, a) {
        (26, 8) => {
            initialize(memory);
            OBEYED
        }
        (26, 9) => {
            clear(memory);
            OBEYED
        }
        _ => NOT_ACCEPTED,
    }
}

// N30: the Station Number Register at A8, Inhibit at A9.
#[tactic(auto, unfolding(crate::specs::Addressed::internal_of))]
pub fn internal(memory: &mut [u32], a: u32, f: u32, w: u32) -> Reply
    requires { FitCrate memory.old }
    ensures { internal_of memory.old a f w ≡ record { memory = memory.new; reply = result } }
{
    match (a, f) {
        (8, 16) => {
            load_stations(memory, w);
            OBEYED
        }
        (9, 24) => {
            set_inhibit(memory, 0);
            OBEYED
        }
        (9, 26) => {
            set_inhibit(memory, 1);
            OBEYED
        }
        (9, 27) => Reply {
            x: 1,
            q: memory[INHIBIT],
            r: 0,
        },
        _ => NOT_ACCEPTED,
    }
}
