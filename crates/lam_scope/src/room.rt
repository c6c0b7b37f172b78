//! How many rows the tables of a document need, so that each table is allocated once. No contract depends on it: a table with too
//! little room grows, and spare room is given back. But tables that grow side by side leave behind the blocks that they grew out
//! of, which together are as large as the tables.

use lam_syntax::{Command, Letrec, Tm, TmField, TmNode};

/// An estimate of the number of rows of each kind: each command counts as a binder, though an evaluation is none, and the uses of
/// type names are not counted. The numbers saturate at `usize::MAX`.
#[derive(Clone, Copy)]
pub(crate) struct Room {
    pub(crate) binders: usize,
    pub(crate) uses: usize,
    pub(crate) places: usize,
}

/// Returns the room that the rows of these commands need.
pub(crate) fn room_of(commands: &[Command]) -> Room {
    let mut room = Room {
        binders: commands.len(),
        uses: 0,
        places: 0,
    };
    for command in commands {
        match command {
            Command::Definition(_, term) => add_term(&mut room, term),
            Command::Declaration(..) => {}
            Command::Abbreviation(..) => {}
            Command::Evaluation(term) => add_term(&mut room, term),
        }
    }
    room
}

#[cycle(room)]
fn add_term(room: &mut Room, term: &Tm) {
    room.places = room.places.saturating_add(1);
    match &term.node {
        TmNode::True => {}
        TmNode::False => {}
        TmNode::Unit => {}
        TmNode::Numeral(_) => {}
        TmNode::Variable(_) => room.uses = room.uses.saturating_add(1),
        TmNode::Lambda(lambda) => {
            room.binders = room.binders.saturating_add(1);
            add_term(room, &lambda.body);
        }
        TmNode::If(conditional) => {
            add_term(room, &conditional.condition);
            add_term(room, &conditional.then_term);
            add_term(room, &conditional.else_term);
        }
        TmNode::Let(parts) => {
            room.binders = room.binders.saturating_add(1);
            add_term(room, &parts.bound);
            add_term(room, &parts.body);
        }
        TmNode::Letrec(parts) => add_letrec(room, parts),
        TmNode::Prefixed(_, operand) => add_term(room, operand),
        TmNode::Apply(application) => {
            add_term(room, &application.function);
            add_term(room, &application.argument);
        }
        TmNode::Project(projection) => add_term(room, &projection.record),
        TmNode::Ascribe(ascription) => add_term(room, &ascription.operand),
        TmNode::Record(fields) => add_fields(room, fields),
    }
}

/// A letrec stands for a let of the fix of a lambda.
#[cycle(room)]
fn add_letrec(room: &mut Room, term: &Letrec) {
    room.binders = room.binders.saturating_add(2);
    room.places = room.places.saturating_add(2);
    add_term(room, &term.bound);
    add_term(room, &term.body);
}

#[cycle(room)]
fn add_fields(room: &mut Room, fields: &[TmField]) {
    for i in 0..fields.len() {
        let field = &fields[i];
        add_term(room, &field.term);
    }
}
