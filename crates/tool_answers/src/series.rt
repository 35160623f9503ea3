//! How full an atlas is, how much is live and what was refused, at moments of a run.

use etagere::{Rectangle, Size};
use etagere_run::{run_atlas, run_bucketed};
use run_scripts::commands::{AtlasCommand, BucketedCommand, Reply};
use run_scripts::faults::RunFault;
use run_scripts::script::{Commands, Script};
use std::alloc::{AllocError, Global};

/// A series has at most this many moments, and the last one.
const MOST_MOMENTS: usize = 1000;

/// What a run has after so many commands.
#[derive(Clone, Copy)]
pub struct Moment {
    pub commands: usize,
    /// The areas of the rectangles that are live, in square pixels.
    pub filled: u64,
    /// The area of the atlas, in square pixels.
    pub area: u64,
    pub live: usize,
    /// Allocations and grows that were refused so far.
    pub refused: usize,
}

/// The moments of a run, from the first on: the same number of commands stands between them, but before the last.
pub fn series_of(alloc: Global, script: &Script) -> Result<Vec<Moment>, RunFault> {
    let replies = replies_of(alloc, script)?;
    let first = Moment {
        commands: 0,
        filled: 0,
        area: area_of_size(script.size),
        live: 0,
        refused: 0,
    };
    sampled(alloc, first, &script.commands, replies.as_slice()).map_err(|_| RunFault::Memory)
}

fn replies_of(alloc: Global, script: &Script) -> Result<Vec<Reply>, RunFault> {
    let (size, options) = (script.size, &script.options);
    match &script.commands {
        Commands::OfShelves(commands) => run_atlas(alloc, size, options, commands.as_slice()),
        Commands::OfBuckets(commands) => run_bucketed(alloc, size, options, commands.as_slice()),
    }
}

fn sampled(
    alloc: Global,
    first: Moment,
    commands: &Commands,
    replies: &[Reply],
) -> Result<Vec<Moment>, AllocError> {
    let stride = replies.len() / MOST_MOMENTS + 1;
    let mut moments = vec![in alloc; first]?;
    let mut moment = first;
    for (position, reply) in replies.iter().enumerate() {
        moment = moment.after(change_at(commands, position), reply, replies);
        if moment.commands % stride == 0 || moment.commands == replies.len() {
            moments.push(moment)?;
        }
    }
    Ok(moments)
}

/// What the reply to a command may mean for what is live.
#[derive(Clone, Copy)]
enum Change {
    Return(usize),
    Grow(Size),
    Other,
}

/// What the command at a position changes.
fn change_at(commands: &Commands, position: usize) -> Change {
    match commands {
        Commands::OfShelves(commands) => match commands.get(position) {
            Some(AtlasCommand::Return(earlier)) => Change::Return(*earlier),
            Some(AtlasCommand::Grow(size)) => Change::Grow(*size),
            _ => Change::Other,
        },
        Commands::OfBuckets(commands) => match commands.get(position) {
            Some(BucketedCommand::Return(earlier)) => Change::Return(*earlier),
            Some(BucketedCommand::Grow(size)) => Change::Grow(*size),
            _ => Change::Other,
        },
    }
}

impl Moment {
    /// The moment after the next command.
    fn after(self, change: Change, reply: &Reply, replies: &[Reply]) -> Moment {
        let next = Moment {
            commands: self.commands.saturating_add(1),
            ..self
        };
        match (reply, change) {
            (Reply::Placed(allocation), _) => Moment {
                filled: self.filled.saturating_add(area_of(allocation.rectangle)),
                live: self.live.saturating_add(1),
                ..next
            },
            (Reply::Returned, Change::Return(earlier)) => Moment {
                filled: self.filled.saturating_sub(area_at(replies, earlier)),
                live: self.live.saturating_sub(1),
                ..next
            },
            (Reply::Cleared, _) => Moment {
                filled: 0,
                live: 0,
                ..next
            },
            (Reply::Grown, Change::Grow(size)) => Moment {
                area: area_of_size(size),
                ..next
            },
            (Reply::Refused | Reply::GrowRefused(_), _) => Moment {
                refused: self.refused.saturating_add(1),
                ..next
            },
            _ => next,
        }
    }

    /// How many thousandths of the atlas are live.
    pub fn fill(&self) -> u64 {
        self.filled.saturating_mul(1000) / self.area.max(1)
    }
}

/// The area of what the command at a position was given; 0 where that is nothing.
fn area_at(replies: &[Reply], position: usize) -> u64 {
    match replies.get(position) {
        Some(Reply::Placed(allocation)) => area_of(allocation.rectangle),
        _ => 0,
    }
}

fn area_of(rectangle: Rectangle) -> u64 {
    let (min, max) = (rectangle.min, rectangle.max);
    u64::from(max.x.abs_diff(min.x)) * u64::from(max.y.abs_diff(min.y))
}

fn area_of_size(size: Size) -> u64 {
    u64::from(size.width.unsigned_abs()) * u64::from(size.height.unsigned_abs())
}
