ghost use Rattle.std.specs.Prelude.{◌≡◌, true, length, is_ok, IfOk};
ghost use Rattle.names.specs.Key.{is_key};
ghost use Rattle.store.specs.code.Deciding.{word_numbered};
ghost use Rattle.store.specs.code.Rows.{first_changes};
ghost use Rattle.store.specs.code.Pending.{machine_of, added_at, Taking};
ghost use Rattle.store.specs.Word.{decide as decide_by};
ghost use Rattle.reader.specs.code.Found.{attrs_of};
ghost use Rattle.store.specs.code.Refusals.{said};
ghost use Rattle.reader.specs.code.Answered.{said_as};
ghost use Rattle.reader.specs.code.EntityTags.{key_held, text_room};
ghost use Rattle.reader.specs.code.Telling.{Opening};
ghost use Rattle.reader.specs.code.Acting.{study_changes, entity_changes, idle_at, word_plan, tag_value, tag_given, EndPlanned, EntityOpens, plan_changes, Ready, PlannedBy, asked_of, Unchanged, Asking, AskingOf, ChangedBy, Acts};

use crate::cursor::TagRead;
use crate::entity::{TEXT_ROOM, attribute_text, is_given, put_given};
use crate::tell::Told;
use names::key::{names_used, pack_names};
use store::answer::Refusal;
use store::decide::{Kind, REMOVE, decide};
use store::pending::{Pending, add_change, look_up};
use store::standing::is_study;

// What the store is to do with a tag: the kind of the change to add, if any, of which the bytes stand in a text up to `end`; and the place of the entity's key in
// the index.
#[derive(Clone, Copy)]
struct Plan {
    lookup: Result<usize, usize>,
    end: usize,
    kind: Option<Kind>,
}

// No key is looked up, and none stands anywhere.
fn unplanned(pending: Pending) -> Plan
    ensures { result.kind ≡ None }
{
    Plan {
        lookup: Err(pending.entries),
        end: 0,
        kind: None,
    }
}

// Plans the end of an entity: writes its key, which is held, to the front of a text, and looks it up. It is written out where it is called:
// otherwise a large file takes a twentieth more.
#[inline(always)]
fn plan_end(
    numbers: &[u32],
    bytes: &[u8],
    index: &[u32],
    pending: Pending,
    depth: u8,
    held: &[u8],
    lens: &[u8],
    text: &mut [u8],
) -> Plan
    requires taking { Taking numbers.now bytes.now index.now pending }
    requires held_len { (length held.now ≡ 128) × (length lens.now ≡ 8) × (length text.old ≡ text_room) }
    requires lens_value { is_key (key_held depth held.now lens.now) ≡ true }
    ensures { EndPlanned numbers.now bytes.now index.now pending (key_held depth held.now lens.now) text.new result }
{
    let n = names_used(depth);
    let end = pack_names(held, lens, n, text);
    let lookup = look_up(numbers, bytes, index, pending, &text[0..end], n);
    Plan {
        lookup,
        end,
        kind: Some(Kind::End),
    }
}

// What the word of an entity decides, by the plan of its end and the end of its value's bytes. A Remove's end waits until a tag leaves the element.
#[tactic(auto, unfolding(crate::specs::code::Acting::word_plan, names::specs::Pick::pick))]
fn plan_word(p: Plan, kind: u8, word: u8, given: bool, end: usize) -> Result<Plan, Refusal>
    ensures { said result ≡ word_plan (decide_by (word_numbered word) (is_ok p.lookup) given) p kind end }
{
    let nothing = Plan {
        lookup: p.lookup,
        end: 0,
        kind: None,
    };
    match decide(word, p.lookup.is_ok(), given)? {
        None => Ok(nothing),
        Some(Kind::End) => {
            if kind == 0 {
                return Ok(nothing);
            }
            Ok(p)
        }
        Some(change) => Ok(Plan {
            lookup: p.lookup,
            end,
            kind: Some(change),
        }),
    }
}

// Plans what an entity's opening tag asks for. Its change has the key's bytes first, as its end has, and the value's behind.
fn plan_entity(
    numbers: &[u32],
    bytes: &[u8],
    index: &[u32],
    pending: Pending,
    s: &[u8],
    t: TagRead,
    told: Told,
    depth: u8,
    held: &[u8],
    lens: &[u8],
    text: &mut [u8],
) -> Result<Plan, Refusal>
    requires taking { Taking numbers.now bytes.now index.now pending }
    requires held_len { (length held.now ≡ 128) × (length lens.now ≡ 8) × (length text.old ≡ text_room) }
    requires entity_opens { EntityOpens (first_changes numbers.now bytes.now pending.changes) s.now t told.content depth (key_held depth held.now lens.now) }
    ensures { PlannedBy (entity_changes (machine_of numbers.now bytes.now) (added_at numbers.now bytes.now pending.changes) told.kind (key_held depth held.now lens.now) (tag_value s.now t told.content) (tag_given s.now t) (word_numbered told.word)) numbers.now bytes.now index.now pending depth text.new result }
{
    let p = plan_end(numbers, bytes, index, pending, depth, held, lens, text);
    let end = put_given(s, t, told.content, text, p.end);
    plan_word(p, told.kind, told.word, is_given(t), end)
}

// ClinicalData opens: "8 not this store's study or version".
fn plan_clinical(
    numbers: &[u32],
    bytes: &[u8],
    index: &[u32],
    pending: Pending,
    s: &[u8],
    t: TagRead,
) -> Result<Plan, Refusal>
    requires taking { Taking numbers.now bytes.now index.now pending }
    requires opening { Opening s.now t 0 0 }
    ensures changes { said_as (λ _. added_at numbers.now bytes.now pending.changes) result ≡ study_changes (machine_of numbers.now bytes.now) (added_at numbers.now bytes.now pending.changes) (attrs_of s.now t) }
    ensures kind { IfOk result (λ p. p.kind ≡ None) }
{
    let study = attribute_text(s, t, 0);
    let version = attribute_text(s, t, 1);
    if is_study(numbers, bytes, index, pending, study, version) {
        Ok(unplanned(pending))
    } else {
        Err(Refusal::OtherStudy)
    }
}

// Whether a tag asks nothing of the store: it closes an element that its word does not remove.
#[tactic(auto, unfolding(crate::specs::code::Acting::idle_at, names::specs::Pick::pick))]
fn is_idle(kind: u8, word: u8) -> bool
    ensures { result ≡ idle_at kind word }
{
    kind == 2 && word != REMOVE
}

// Plans what a tag asks for; an idle one, as most closing tags are, adds nothing. The key that is held is that of the entity which the tag opens or closes; a
// closing tag adds its end.
fn plan_tag(
    numbers: &[u32],
    bytes: &[u8],
    index: &[u32],
    pending: Pending,
    s: &[u8],
    t: TagRead,
    told: Told,
    depth: u8,
    held: &[u8],
    lens: &[u8],
    text: &mut [u8],
) -> Result<Plan, Refusal>
    requires { Asking numbers.now bytes.now index.now pending s.now t told depth held.now lens.now × (length text.old ≡ text_room) }
    ensures { PlannedBy (asked_of numbers.now bytes.now pending s.now t told depth held.now lens.now) numbers.now bytes.now index.now pending depth text.new result }
{
    if is_idle(told.kind, told.word) {
        return Ok(unplanned(pending));
    }
    if told.kind == 2 {
        return Ok(plan_end(numbers, bytes, index, pending, depth, held, lens, text));
    }
    if depth == 0 {
        return plan_clinical(numbers, bytes, index, pending, s, t);
    }
    plan_entity(
        numbers, bytes, index, pending, s, t, told, depth, held, lens, text,
    )
}

// No change is added. The next key is looked for behind this one's place.
fn unchanged(pending: Pending, p: Plan) -> Pending
    ensures { Unchanged pending result }
{
    let finger = match p.lookup {
        Ok(place) if place < pending.entries => place + 1,
        _ => pending.finger,
    };
    Pending { finger, ..pending }
}

// Adds the change that is planned, if any.
fn add_planned(
    numbers: &mut [u32],
    bytes: &mut [u8],
    index: &mut [u32],
    pending: Pending,
    p: Plan,
    depth: u8,
    text: &[u8],
) -> Result<Pending, Refusal>
    requires taking { Taking numbers.old bytes.old index.old pending }
    requires ready { Ready numbers.old bytes.old index.old pending depth text.now p }
    ensures { ChangedBy (plan_changes (machine_of numbers.old bytes.old) (added_at numbers.old bytes.old pending.changes) depth text.now p) numbers.old bytes.old numbers.new bytes.new index.new result }
{
    match p.kind {
        None => Ok(unchanged(pending, p)),
        Some(kind) => add_change(
            numbers,
            bytes,
            index,
            pending,
            p.lookup,
            u32::from(kind),
            depth as u32,
            &text[0..p.end],
        ),
    }
}

// Does what an accepted tag tells the store of: plans it, and adds the change, if any. The key of the entity that it opens or closes is held.
// Written out where it is called, as `act` is: what is told of a tag is many words, which a call would copy.
#[inline(always)]
fn act_on<'a>(
    numbers: &mut [u32],
    bytes: &mut [u8],
    index: &mut [u32],
    pending: Pending,
    s: &[u8],
    t: TagRead,
    told: Told,
    depth: u8,
    held: &'a [u8; 128],
    lens: &'a [u8; 8],
) -> Result<Pending, Refusal>
    requires { Asking numbers.old bytes.old index.old pending s.now t told depth held.now lens.now }
    ensures { ChangedBy (asked_of numbers.old bytes.old pending s.now t told depth held.now lens.now) numbers.old bytes.old numbers.new bytes.new index.new result }
{
    let mut text = [0; TEXT_ROOM];
    let p = plan_tag(
        numbers, bytes, index, pending, s, t, told, depth, held, lens, &mut text,
    )?;
    add_planned(numbers, bytes, index, pending, p, depth, &text)
}

// What the store does with a tag, by what `tell_tag` answers of it. Where the file stops, refused or at ODM's close (None), it answers so and changes nothing.
#[inline(always)]
pub fn act<'a>(
    numbers: &mut [u32],
    bytes: &mut [u8],
    index: &mut [u32],
    pending: Pending,
    s: &[u8],
    t: TagRead,
    told: Result<Option<Told>, Refusal>,
    depth: u8,
    held: &'a [u8; 128],
    lens: &'a [u8; 8],
) -> Result<Option<Pending>, Refusal>
    requires { AskingOf numbers.old bytes.old index.old pending s.now t told depth held.now lens.now }
    ensures { Acts numbers.old bytes.old pending s.now t told depth held.now lens.now numbers.new bytes.new index.new result }
{
    match told? {
        Some(told) => {
            let taken = act_on(
                numbers, bytes, index, pending, s, t, told, depth, held, lens,
            )?;
            Ok(Some(taken))
        }
        None => Ok(None),
    }
}
