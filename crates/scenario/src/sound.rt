//! Facts about the operands of lines that their types give. Each function only names the parts.
ghost use Rattle.std.specs.Prelude.{◌≡◌, ◌^◌, true, nat_lt};
ghost use Rattle.scenario.specs.Scripts.{is_line, is_flick};

use crate::lines::Line;
use choices::Flick;
use plain_store::NestedTypes;

/// Its process has 8 bits, and its other operands are names, values and numbers.
pub fn sound_line(line: &Line)
    ensures { is_line line.now ≡ true }
{
    let _nested: NestedTypes = None;
    match line {
        Line::Call(process, command) => {
            sound_process(*process);
            command.operands_are_sound();
        }
        Line::Step(process, _) | Line::Go(process, _) => sound_process(*process),
        Line::Fail(process) | Line::Withdraw(process) | Line::Restart(process) => {
            sound_process(*process);
        }
        Line::Flick(flick) => sound_flick(flick),
        Line::Wander(_) | Line::Show => {}
    }
}

fn sound_flick(flick: &Flick)
    ensures { is_flick flick.now ≡ true }
{
    match flick {
        Flick::Zero | Flick::One => {}
        Flick::Pcg(seed) => sound_seed(*seed),
    }
}

fn sound_process(process: u8)
    ensures { nat_lt process 256 ≡ true }
{}

fn sound_seed(seed: u64)
    ensures { nat_lt seed (2 ^ 64) ≡ true }
{}
