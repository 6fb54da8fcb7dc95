// The lines that `schedule` prints, by what they say. Each has a function that names its figures: one for all would take a letter and parts, as
// `Line::new` does. A refusal is its number here, and an occupant its letter and a number, which is what is printed; figures are passed side by side, since a struct of them would be made for
// the line alone.
#![tactic(auto)]

ghost use Rattle.std.specs.Prelude.{◌≡◌};
ghost use Rattle.text.specs.Lines.{line_bytes};
ghost use Rattle.lines.specs.Lines.{task_bound_line, server_bound_line, admitted_line, refused_line, tick_line, finish_line, totals_line, plan_refused_line};

use text::Line;
use text::Part::{Letter, Number};

// "B: row (or S) and bound."
pub fn task_bound_line(row: u32, bound: u32) -> Line
    ensures { result ≡ line_bytes (task_bound_line row bound) }
{
    Line::new(b'B', &[Number(row), Number(bound)])
}

// The server's B line.
pub fn server_bound_line(bound: u32) -> Line
    ensures { result ≡ line_bytes (server_bound_line bound) }
{
    Line::new(b'B', &[Letter(b'S'), Number(bound)])
}

// "V: admitted 1 or 0."
pub fn admitted_line(admitted: bool) -> Line
    ensures { result ≡ line_bytes (admitted_line admitted) }
{
    Line::new(b'V', &[Number(u32::from(admitted))])
}

// "A request refused for a full queue prints N,tick,id,5."
pub fn refused_line(tick: u32, id: u32, number: u32) -> Line
    ensures { result ≡ line_bytes (refused_line tick id number) }
{
    Line::new(b'N', &[Number(tick), Number(id), Number(number)])
}

// "X: tick, I idle or T row or A request, row or id, drops."
pub fn tick_line(tick: u32, occupant: u8, id: u32, drops: u32) -> Line
    ensures { result ≡ line_bytes (tick_line tick occupant id drops) }
{
    Line::new(
        b'X',
        &[Number(tick), Letter(occupant), Number(id), Number(drops)],
    )
}

// "F, after its X: tick, id, response."
pub fn finish_line(tick: u32, id: u32, response: u32) -> Line
    ensures { result ≡ line_bytes (finish_line tick id response) }
{
    Line::new(b'F', &[Number(tick), Number(id), Number(response)])
}

// "`schedule` shall end with E,ticks,idle,rows,requests,drops": tasks are its rows.
pub fn totals_line(ticks: u32, idle: u32, tasks: u32, requests: u32, drops: u32) -> Line
    ensures { result ≡ line_bytes (totals_line ticks idle tasks requests drops) }
{
    Line::new(
        b'E',
        &[
            Number(ticks),
            Number(idle),
            Number(tasks),
            Number(requests),
            Number(drops),
        ],
    )
}

// "A refused plan prints only Z,number,line."
pub fn plan_refused_line(number: u32, line: u32) -> Line
    ensures { result ≡ line_bytes (plan_refused_line number line) }
{
    Line::new(b'Z', &[Number(number), Number(line)])
}
