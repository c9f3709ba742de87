//! Charts of schedules.
ghost use Rattle.tf_model.specs.Limit.{most_machines};
ghost use Rattle.std.specs.Prelude.{◌≡◌, ◌≤◌, ◌<◌, ◌+◌, ◌^◌, ◌++◌, true, false, length, min, max};
ghost use Rattle.std.specs.Prelude.{unwrap_or, IsErr, OnOk, OnErr};
ghost use Rattle.arrayvec.specs.ArrayVec.{array_vec_len};
ghost use Rattle.tf_schedule.specs.Drawing.{greatest_stop, job_at};
ghost use Rattle.tf_text.specs.Counted.{inner_of, has_failed, AppendsPrefix};
ghost use Rattle.tf_text.specs.Chart.{most_columns, column_time, cell_sign, cell_signs};
ghost use Rattle.tf_text.specs.Chart.{machine_line, length_line, chart_text};
ghost use Rattle.std.specs.Io.KnownBytes.{Appends};

use crate::counted::{Counted, Device};
use arrayvec::ArrayVec;
use itoa::Buffer;
use std::alloc::Allocator;
use std::io::Write;
use tf_model::ids::{JobId, MachineId};
use tf_schedule::schedule::Schedule;

/// The most columns of a chart.
pub const MOST_COLUMNS: u32 = 1_000;

// Room for a line: its columns, and the words and the number round them.
const LONGEST_LINE: usize = 1_100;

type Line = ArrayVec<u8, LONGEST_LINE>;

/// Draws a schedule (Gantt's chart): its length in time steps, and then each machine from 1 to
/// `machines` in a line of its own.
///
/// A line has a column for each time step, or, where the schedule is longer than `columns`, so many
/// columns for times that are spread evenly. An idle column is `.`; otherwise it shows the job, by
/// its number modulo 36 as a digit or a letter. Pieces on further machines are not shown, but their
/// stops count in the length. After a failure a prefix of the chart was written. It takes no
/// memory.
pub fn write_gantt<A: Allocator, W: Write>(
    writer: &mut Counted<W>,
    schedule: &Schedule<A>,
    machines: u32,
    columns: u32,
) -> Result<(), Device>
    requires machines { (1 ≤ machines) × (machines ≤ most_machines) }
    requires columns { (1 ≤ columns) × (columns ≤ most_columns) }
    ensures written { OnOk result (Appends (W.contents (inner_of writer.old))
        (W.contents (inner_of writer.new)) (chart_text schedule.now machines columns)) }
    ensures unfailed { OnOk result (has_failed writer.new ≡ false) }
    ensures prefix { OnErr result (AppendsPrefix (W.contents (inner_of writer.old))
        (W.contents (inner_of writer.new)) (chart_text schedule.now machines columns)) }
    ensures device { OnErr result (has_failed writer.new ≡ true) }
    ensures failed_before { has_failed writer.old ≡ true →
        IsErr result × (writer.new ≡ writer.old) }
{
    let length = length_of(schedule);
    writer.push_all(length_line(schedule).as_slice())?;
    for k in 0..machines {
        let line = machine_line(schedule, length, columns, MachineId::at(k as usize));
        writer.push_all(line.as_slice())?;
    }
    Ok(())
}

fn push(line: &mut Line, bytes: &[u8])
    requires { array_vec_len line.old + length bytes.now ≤ LONGEST_LINE }
    ensures items { line.new.items ≡ line.old.items ++ bytes.now }
    ensures len { array_vec_len line.new ≡ array_vec_len line.old + length bytes.now }
{
    line.try_extend_from_slice(bytes).unwrap();
}

fn length_line<A: Allocator>(schedule: &Schedule<A>) -> Line
    ensures { result.items ≡ length_line schedule.now }
{
    let mut line = Line::new();
    let mut digits = Buffer::new();
    push(&mut line, b"length ");
    push(&mut line, digits.format(length_of(schedule)).as_bytes());
    push(&mut line, b"\n");
    line
}

fn machine_line<A: Allocator>(
    schedule: &Schedule<A>,
    length: u64,
    columns: u32,
    machine: MachineId,
) -> Line
    requires length { (length ≡ greatest_stop schedule.now) × (length < 2 ^ 63) }
    requires columns { columns ≤ most_columns }
    ensures { result.items ≡ machine_line schedule.now columns machine }
{
    let mut line = Line::new();
    let mut digits = Buffer::new();
    push(&mut line, b"machine ");
    push(&mut line, digits.format(machine.get()).as_bytes());
    push(&mut line, b" |");
    push_cells(&mut line, schedule, length, columns, machine);
    push(&mut line, b"|\n");
    line
}

fn push_cells<A: Allocator>(
    line: &mut Line,
    schedule: &Schedule<A>,
    length: u64,
    columns: u32,
    machine: MachineId,
)
    requires length { (length ≡ greatest_stop schedule.now) × (length < 2 ^ 63) }
    requires room { array_vec_len line.old + columns ≤ LONGEST_LINE }
    ensures items { line.new.items ≡ line.old.items ++ cell_signs schedule.now columns machine }
    ensures len { array_vec_len line.new ≤ array_vec_len line.old + columns }
{
    let width = length.min(u64::from(columns)) as u32;
    for column in 0..width {
        let time = column_time(length, columns, column);
        line.push(cell_sign(schedule.cell(machine, time as i64)));
    }
}

fn length_of<A: Allocator>(schedule: &Schedule<A>) -> u64
    ensures value { result ≡ greatest_stop schedule.now }
    ensures small { result < 2 ^ 63 }
{
    schedule.length() as u64
}

// The time that a column shows.
fn column_time(length: u64, columns: u32, column: u32) -> u64
    requires { column < columns }
    ensures value { result ≡ column_time length columns column }
    ensures within { result ≤ max length column }
{
    if length <= u64::from(columns) {
        return u64::from(column);
    }
    (u128::from(column) * u128::from(length) / u128::from(columns)) as u64
}

fn cell_sign(job: Option<JobId>) -> u8
    ensures { result ≡ cell_sign (unwrap_or job 0) }
{
    match job {
        Some(job) => b"0123456789abcdefghijklmnopqrstuvwxyz"[job.get() as usize % 36],
        None => b'.',
    }
}
