//! What the files say of a position: its value, its best moves, what each legal move leads to, and
//! the line of best play.
ghost use Rattle.std.specs.Prelude.{◌≡◌, ◌≤◌, ◌*◌, ◌++◌, ◌∷◌, [], map, length, IfOk, IfSome, OnOk};
ghost use Rattle.std.specs.List.{Contains};
ghost use Rattle.morris_lookup.specs.declared.outcomes.Outcome.{Outcome};
ghost use Rattle.morris_lookup.specs.Lookups.{depth_of};
ghost use Rattle.morris_moves.specs.Rules.{moves_of};
ghost use Rattle.morris_queries.specs.Folders.{Stays, HoldsFor};
ghost use Rattle.morris_queries.specs.Printing.{IsShort};
ghost use Rattle.morris_queries.specs.Reports.{Agrees, Gives, IsListed, better, played, value_from, reported_of, reported_line, reported_outcomes, reported_shown};

use crate::library::Library;
use crate::show::Show;
use crate::values::Folder;
use morris_board::board::Geometry;
use morris_board::position::Position;
use morris_jobs::fault::Fault;
use morris_lookup::outcomes::{Outcome, best_of, is_same, value_for_mover};
use morris_moves::game_move::Move;
use morris_moves::rules::{moves, play};
use morris_pairs::value::Value;
use std::alloc::AllocError;
use std::marker::Model;

/// A ply of a line of play.
#[derive(Drop)]
pub struct Ply<B: Geometry> {
    /// The move.
    pub step: Move,
    /// The position after it.
    pub position: Position<B>,
    /// The value of that position, for the player to move there.
    pub value: Value,
}

impl<B: Geometry> Model for Ply<B> {
    ghost use Rattle.morris_queries.specs.Reports.{Played};

    ghost Value = { Played };

    ghost view = { λ ply. record { step = ply.step; after = ply.position; value = ply.value } };
}

/// What the files say of a position.
#[derive(Drop)]
pub struct Report<B: Geometry> {
    value: Value,
    best: Vec<Move>,
    outcomes: Vec<Outcome>,
    line: Vec<Ply<B>>,
}

impl<B: Geometry> Model for Report<B> {
    ghost use Rattle.morris_queries.specs.Reports.{PositionReport};

    ghost Value = { PositionReport };

    ghost view = { λ reported. record { value = reported.value; best = reported.best.items; outcomes = reported.outcomes.items; line = reported.line.items } };
}

impl<B: Geometry> Report<B> {
    /// The value of the position.
    pub fn value(&self) -> Value
        ensures { result ≡ self.now.value }
    {
        self.value
    }

    /// Its best moves, in order.
    pub fn best(&self) -> &[Move]
        ensures { result.now ≡ self.now.best }
    {
        self.best.as_slice()
    }

    /// Its legal moves in order, each with the value that it leads to.
    pub fn outcomes(&self) -> &[Outcome]
        ensures { result.now ≡ self.now.outcomes }
    {
        self.outcomes.as_slice()
    }

    /// The line of best play, where it is to be shown.
    pub fn line(&self) -> &[Ply<B>]
        ensures { result.now ≡ self.now.line }
    {
        self.line.as_slice()
    }
}

#[tactic(auto, using(crate::proofs::FolderLaws::stays_laws))]
impl<B: Geometry, L: Library> Folder<'_, '_, '_, B, L> {
    /// What each legal move of a position leads to, in order.
    ///
    /// # Errors
    /// Those of [`value`](Folder::value), at the first move for which there is one;
    /// [`Fault::Memory`].
    fn outcomes(&mut self, position: &Position<B>) -> Result<Vec<Outcome>, Fault>
        ensures stays { Stays B.shape L.files self.old self.new }
        ensures listed { IfOk result (λ outcomes. map (λ (o : Outcome). o.step) outcomes.items ≡ moves_of B.shape position.now) }
        ensures few { IfOk result (λ outcomes. length outcomes.items ≤ 9 * 24 * 9) }
        ensures reported { HoldsFor B.shape L.files self.old (λ name files. Gives result (λ outcomes. outcomes.items) (reported_outcomes B.shape name files position.now (moves_of B.shape position.now))) }
    {
        let mut outcomes = Vec::with_capacity(self.alloc, moves(position).count())?;
        for m in moves(position) {
            let value = self.value(&play(position, m))?;
            let outcome = Outcome {
                step: m,
                value: value_for_mover(value),
            };
            push_or_refuse(&mut outcomes, outcome)?;
        }
        Ok(outcomes)
    }

    /// The report of a position, without a line of play.
    ///
    /// # Errors
    /// Those of [`value`](Folder::value), for the position and then at the first legal move for
    /// which there is one; [`Fault::Disagree`] where the value doesn't follow from what the moves
    /// lead to; [`Fault::Memory`].
    fn report_best(&mut self, position: &Position<B>) -> Result<Report<B>, Fault>
        ensures stays { Stays B.shape L.files self.old self.new }
        ensures listed { IfOk result (IsListed B.shape position.now) }
        ensures few { IfOk result IsShort }
        ensures reported { HoldsFor B.shape L.files self.old (λ name files. Agrees result (reported_of B.shape name files position.now)) }
    {
        let value = self.value(position)?;
        let outcomes = self.outcomes(position)?;
        if !is_same(value, value_from(outcomes.as_slice())) {
            return Err(Fault::Disagree);
        }
        let best = best_of(self.alloc, value, outcomes.as_slice())?;
        Ok(Report {
            value,
            best,
            outcomes,
            line: Vec::new(self.alloc),
        })
    }

    /// The line of play from a position by this move, over so many plies at most: it goes on from
    /// each position by the first best move, and ends where there is none. Each position of it is
    /// looked up, the last one too.
    ///
    /// # Errors
    /// Those of [`report_best`](Folder::report_best), at the first position of the line for which
    /// there is one; [`Fault::Memory`].
    fn play_out(
        &mut self,
        position: &Position<B>,
        first: Option<Move>,
        plies: u16,
    ) -> Result<Vec<Ply<B>>, Fault>
        requires legal { IfSome first (Contains (moves_of B.shape position.now)) }
        ensures stays { Stays B.shape L.files self.old self.new }
        ensures few { IfOk result (λ line. length line.items ≤ plies) }
        ensures reported { HoldsFor B.shape L.files self.old (λ name files. Gives result (λ line. line.items) (reported_line B.shape name files plies position.now first)) }
    {
        let mut line = Vec::new(self.alloc);
        let mut here = *position;
        let mut next = first;
        for _ in 0..plies {
            let Some(m) = next else {
                return Ok(line);
            };
            here = play(&here, m);
            let reported = self.report_best(&here)?;
            next = reported.best().first().copied();
            push_or_refuse(&mut line, ply_to(&here, m, &reported))?;
        }
        Ok(line)
    }

    /// The report of a position where this is to be shown.
    ///
    /// # Errors
    /// Those of [`report_best`](Folder::report_best) for the position, and then for those of the
    /// line of play, where it is to be shown.
    pub(crate) fn report(&mut self, position: &Position<B>, show: Show) -> Result<Report<B>, Fault>
        ensures stays { Stays B.shape L.files self.old self.new }
        ensures listed { IfOk result (IsListed B.shape position.now) }
        ensures few { IfOk result IsShort }
        ensures reported { HoldsFor B.shape L.files self.old (λ name files. Agrees result (reported_shown B.shape name files show position.now)) }
    {
        let reported = self.report_best(position)?;
        match show {
            Show::Line => {
                let first = reported.best().first().copied();
                let line = self.play_out(position, first, depth_of(reported.value))?;
                Ok(Report {
                    value: reported.value,
                    best: reported.best,
                    outcomes: reported.outcomes,
                    line,
                })
            }
            _ => Ok(reported),
        }
    }
}

/// The ply of a move to a position that has this report.
fn ply_to<B: Geometry>(position: &Position<B>, m: Move, reported: &Report<B>) -> Ply<B>
    ensures { result ≡ played m position.now reported.now.value }
{
    Ply {
        step: m,
        position: *position,
        value: reported.value(),
    }
}

/// Adds one to a list.
fn push_or_refuse<T: Drop>(list: &mut Vec<T>, next: T) -> Result<(), AllocError>
    ensures { OnOk result (list.new.items ≡ list.old.items ++ next ∷ []) }
{
    list.push(next)?;
    Ok(())
}

/// The better of two values for the player who may choose between them.
fn better(one: Value, other: Value) -> Value
    ensures { result ≡ better one other }
{
    match one {
        Value::Won(depth) => match other {
            Value::Won(other) => Value::Won(depth.min(other)),
            _ => one,
        },
        Value::Draw => match other {
            Value::Won(_) => other,
            _ => one,
        },
        Value::Lost(depth) => match other {
            Value::Lost(other) => Value::Lost(depth.max(other)),
            _ => other,
        },
    }
}

/// The value of a position by the rules, from what its legal moves lead to.
fn value_from(outcomes: &[Outcome]) -> Value
    ensures { result ≡ value_from outcomes.now }
{
    outcomes.iter().fold(Value::Lost(0), |best, outcome| better(best, outcome.value))
}

/// In how many plies the game is over by a value; 0 at a draw.
fn depth_of(value: Value) -> u16
    ensures { result ≡ depth_of value }
{
    match value {
        Value::Draw => 0,
        Value::Won(depth) | Value::Lost(depth) => depth,
    }
}
