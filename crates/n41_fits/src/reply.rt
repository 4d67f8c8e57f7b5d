ghost use Rattle.std.specs.Prelude.{◌≡◌, ◌+◌, ◌^◌, ◌-◌, [], min, drop, slice_get, option_map, Some};
ghost use Rattle.std.specs.Result.{result_err};
ghost use Rattle.n41_results.specs.declared.shapes.Shape.TheVariants as shape;
ghost use Rattle.n41_results.specs.Shapes.{asked_of, body_shape, misfit, nothing_after, shape_from, shape_of, told};
ghost use Rattle.n41_fits.specs.Answers.{answers};

use crate::asked::asked;
use crate::attributes::unasked_in;
use n41_results::{Reply, ReplyBody, Res, Shape};
use n41_types::{Operation, Request, Status};

/// What is told of a result that does not fit at this place.
fn misplaced(place: usize, op: u32) -> Shape
    ensures { result ≡ told (shape.Op place op) }
{
    Shape::Op {
        place: u32::try_from(place).unwrap_or(u32::MAX),
        op,
    }
}

/// What is told of a result at a place where it was not asked for.
fn unfit(request: &Request, place: usize, answer: &Res) -> Option<Shape>
    ensures { result ≡ option_map told (misfit place (drop place (asked_of request.now)) answer.now) }
{
    match asked(request, place) {
        Some(operation) => Some(misplaced(place, operation.number())),
        None => Some(misplaced(place, answer.operation().number())),
    }
}

/// What is told of results that follow one that was not OK.
fn after_failure(request: &Request, place: usize, rest: &[Res]) -> Option<Shape>
    ensures { result ≡ option_map told (nothing_after place (drop place (asked_of request.now)) rest.now) }
{
    match rest.first() {
        Some(answer) => unfit(request, place, answer),
        None => None,
    }
}

/// What is told where the results end before all operations were answered.
fn ended(request: &Request, place: usize) -> Option<Shape>
    ensures { result ≡ option_map told (shape_from request.now.plan place (drop place (asked_of request.now)) []) }
{
    match asked(request, place) {
        Some(operation) => Some(misplaced(place, operation.number())),
        None => None,
    }
}

/// Whether this operation was asked for, and this is its result.
fn is_answer(wanted: Option<Operation>, answer: &Res) -> bool
    ensures { result ≡ answers wanted answer.now }
{
    match wanted {
        Some(operation) => answer.operation().number() == operation.number(),
        None => false,
    }
}

/// What is told of a list of results.
fn list_shape(request: &Request, list: &[Res]) -> Option<Shape>
    ensures { result ≡ option_map told (shape_from request.now.plan 0 (asked_of request.now) list.now) }
{
    for (place, answer) in list.iter().enumerate() {
        if !is_answer(asked(request, place), answer) {
            return unfit(request, place, answer);
        }
        if let Some(attribute) = unasked_in(&request.plan, answer) {
            return Some(Shape::Attr(attribute));
        }
        if answer.status() != Status::OK {
            return after_failure(request, place + 1, &list[place + 1..]);
        }
    }
    ended(request, list.len())
}

/// What is told of a reply with the request's number.
fn told_of_body(request: &Request, body: &ReplyBody) -> Option<Shape>
    ensures { result ≡ option_map told (body_shape request.now body.now) }
{
    match body {
        ReplyBody::Denied(_) | ReplyBody::Rejected(_) => None,
        ReplyBody::Results { status, list } => {
            if list.len() == 0 && *status == Status::MINOR_VERS_MISMATCH {
                return None;
            }
            list_shape(request, list.as_slice())
        }
    }
}

/// Whether a reply is one to a request: its number, and the operations and attributes that were asked for, up to the first operation that
/// was not OK. Else the first thing in which it is not; a place that a u32 does not hold is told as the greatest u32. An empty list comes
/// with MINOR_VERS_MISMATCH alone (RFC 8881, section 16.2.3).
pub fn fits(request: &Request, reply: &Reply) -> Result<(), Shape>
    ensures { result_err result ≡ option_map told (shape_of request.now reply.now) }
{
    if request.xid != reply.xid {
        return Err(Shape::Xid(reply.xid));
    }
    match told_of_body(request, &reply.body) {
        Some(shape) => Err(shape),
        None => Ok(()),
    }
}
