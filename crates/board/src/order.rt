//! Ports in the order of their processes.
ghost use Rattle.std.specs.Prelude.{◌≡◌, ◌↔◌, ℕ, IfSome, IsPermutation, IsTrue, None};
ghost use Rattle.board.specs.Closings.{AreInOrder, AreOfAll, IsPlaceOf};

use crate::port::Port;

/// Returns whether the list has one port of each process, and no other.
pub(crate) fn are_of_all(ports: &Vec<Port>, processes: u8) -> bool
    ensures { IsTrue result ↔ AreOfAll processes ports.now.items }
{
    for process in 0..processes {
        if place_of(ports, process).is_none() {
            return false;
        }
    }
    ports.len() == usize::from(processes)
}

/// Puts the ports of all processes in the order of their processes. Allocates nothing.
pub(crate) fn put_in_order(ports: &mut Vec<Port>, processes: u8)
    requires { AreOfAll processes ports.old.items }
    ensures moved { IsPermutation ports.old.items ports.new.items }
    ensures order { AreInOrder ports.new.items }
{
    for process in 0..processes {
        let place = place_of(ports, process).unwrap();
        ports.swap(usize::from(process), place);
    }
}

/// Returns the index of the port of a process, if the list has one.
fn place_of(ports: &Vec<Port>, process: u8) -> Option<usize>
    ensures found { IfSome result (λ place. IsPlaceOf ports.now.items process place) }
    ensures none { result ≡ None → (place : ℕ) → IsPlaceOf ports.now.items process place → ⊥ }
{
    for (place, port) in ports.iter().enumerate() {
        if port.process() == process {
            return Some(place);
        }
    }
    None
}
