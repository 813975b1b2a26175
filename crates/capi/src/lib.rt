// The interface for C, whose exports stand in `capi_c`: harts, maps, steps and answers as 43, 100, three and four words. A call whose slices have another length
// changes nothing. A memory of page tables is words that stand at a physical address; it may have any length.
#![tactic(auto)]

mod feeding;
mod maps;
mod query;

ghost use Rattle.std.specs.Prelude.{◌≡◌, cond};
ghost use Rattle.paging.specs.Memory.{memory_at};
ghost use Rattle.state.specs.Words.{words_of};
ghost use Rattle.map.specs.MapWords.{map_words};
ghost use Rattle.capi.specs.Calls.{make_result, made_hart, made_map, step_call, run_call, query_result, query_answered, is_form, form_of, refusal_word, save_result, saved_text};
ghost use Rattle.capi.specs.Feeds.{feed_call, left_call};
ghost use Rattle.capi.specs.Calls.{restore_result, restored_hart, restored_map, convert_result, converted_text};

use hart::Hart;
use map::{Map, Range};
use paging::Memory;
use pmp::{Mode, Refusal};
use text::Form;

// Writes a hart and a map as words.
fn put(given: Hart, whole: Map, hart: &mut [u64; 43], map: &mut [u64; 100])
    ensures hart_after { hart.new ≡ words_of given.state }
    ensures map_after { map.new ≡ map_words whole }
{
    *hart = <[u64; 43]>::from(given.state);
    maps::store_map(whole, map);
}

// Makes a hart as after reset, with a grain, and its map. 1, or 0 where a length is another: what a call gives back is a number of C's.
#[tactic(auto, unfolding(crate::specs::Calls::make_result, crate::specs::Calls::made_hart, crate::specs::Calls::made_map))]
pub fn tegrwyllt_make(grain: u64, hart: &mut [u64], map: &mut [u64]) -> u64
    ensures value { result ≡ make_result hart.old map.old }
    ensures hart_after { hart.new ≡ made_hart grain hart.old map.old }
    ensures map_after { map.new ≡ made_map grain hart.old map.old }
{
    let Some(hart) = hart.as_mut_array::<43>() else {
        return 0;
    };
    let Some(map) = map.as_mut_array::<100>() else {
        return 0;
    };
    let made = Hart::reset(grain);
    put(made.hart, made.map, hart, map);
    1
}

// One step: its number, 0 to 17, and its arguments. 1, or 0 where a length or the number is another.
pub fn tegrwyllt_step(
    hart: &mut [u64],
    map: &mut [u64],
    memory: &[u64],
    base: u64,
    step: u64,
    a: u64,
    b: u64,
    answer: &mut [u64],
) -> u64
    ensures value { result ≡ (step_call hart.old map.old (memory_at memory.now base) step a b answer.old).result }
    ensures hart_after { hart.new ≡ (step_call hart.old map.old (memory_at memory.now base) step a b answer.old).hart }
    ensures map_after { map.new ≡ (step_call hart.old map.old (memory_at memory.now base) step a b answer.old).map }
    ensures answer_after { answer.new ≡ (step_call hart.old map.old (memory_at memory.now base) step a b answer.old).answers }
{
    // Told at once. Behind a test the arguments on the stack are read one by one; together, as pairs, they would be waited for.
    if 17 < step {
        return 0;
    }
    let numbers = [step, a, b];
    tegrwyllt_run(hart, map, memory, base, &numbers, answer)
}

// Steps in order, each given what the one before left: three words for each step, and four for its answer. 1, or 0 where a length or a step's number is
// another.
#[tactic(auto, unfolding(crate::specs::Calls::run_call))]
pub fn tegrwyllt_run(
    hart: &mut [u64],
    map: &mut [u64],
    memory: &[u64],
    base: u64,
    steps: &[u64],
    answers: &mut [u64],
) -> u64
    ensures value { result ≡ (run_call hart.old map.old (memory_at memory.now base) steps.now answers.old).result }
    ensures hart_after { hart.new ≡ (run_call hart.old map.old (memory_at memory.now base) steps.now answers.old).hart }
    ensures map_after { map.new ≡ (run_call hart.old map.old (memory_at memory.now base) steps.now answers.old).map }
    ensures answers_after { answers.new ≡ (run_call hart.old map.old (memory_at memory.now base) steps.now answers.old).answers }
{
    let Some(map) = map.as_mut_array::<100>() else {
        return 0;
    };
    // None of the tests needs another to come first: joined by `&` they are one case to prove, and with `&&` several.
    if !((hart.len() == 43) & ((3 * answers.len() == 4 * steps.len()) & steps::name_steps(steps))) {
        return 0;
    }
    let memory = Memory {
        words: memory,
        base,
    };
    let remap = engine::run(hart, memory, steps, answers);
    maps::renew(remap, hart, map);
    1
}

// An access query of an effective mode, 0, 1 or 3, and a kind, 0 fetch, 1 load, 2 store. 1, or 0 where a length, the mode or the kind is another.
#[tactic(auto, unfolding(crate::specs::Calls::query_result, crate::specs::Calls::query_answered))]
pub fn tegrwyllt_query(
    hart: &[u64],
    map: &[u64],
    mode: u64,
    kind: u64,
    address: u64,
    size: u64,
    answer: &mut [u64],
) -> u64
    ensures value { result ≡ query_result hart.now map.now mode kind answer.old }
    ensures answer_after { answer.new ≡ query_answered hart.now map.now mode kind address size answer.old }
{
    let Some(hart) = hart.as_array::<43>() else {
        return 0;
    };
    let Some(answer) = answer.as_mut_array::<4>() else {
        return 0;
    };
    if map.len() != 100 {
        return 0;
    }
    let Ok(mode) = Mode::try_from(mode) else {
        return 0;
    };
    let Some(access) = query::access_of(kind) else {
        return 0;
    };
    *answer = query::decision_words(query::ask(hart, map, mode, access, address, size));
    1
}

// What a call gives where the hart or the map has another length, or the form is another: no refusal has this number. C has no Result, so it is a number.
const MISFIT: u64 = 0xFFFFFFFFFFFFFFFF;

// The form of one of C's numbers.
fn form_of(form: u64) -> Option<Form>
    ensures { result ≡ cond (is_form form) (Some (form_of form)) None }
{
    Form::try_from(form).ok()
}

// The number of a refusal, or 0.
fn refusal_word(refusal: Option<Refusal>) -> u64
    ensures { result ≡ refusal_word refusal }
{
    refusal.map_or(0, u64::from)
}

// Saves a hart in a form, 1 or 2, to the front of a buffer. 0, or the number of the refusal, 3 before 6 before 12.
#[tactic(auto, unfolding(crate::specs::Calls::save_result, crate::specs::Calls::saved_text))]
pub fn tegrwyllt_save(form: u64, hart: &[u64], text: &mut [u8]) -> u64
    ensures value { result ≡ save_result form hart.now text.old }
    ensures text_after { text.new ≡ saved_text form hart.now text.old }
{
    let Some(form) = form_of(form) else {
        return MISFIT;
    };
    if hart.len() != 43 {
        return MISFIT;
    }
    let given = Hart {
        state: state::load(hart),
    };
    refusal_word(given.save(form, text).refusal())
}

// Reads a text of a form back as a hart and its map. 0, or the number of the refusal, 4 before 5; then hart and map are left as they were. What a hart and
// a map that go in are does not matter to the reading, so any stand for them.
#[tactic(auto, unfolding(crate::specs::Calls::restore_result, crate::specs::Calls::restored_hart, crate::specs::Calls::restored_map))]
pub fn tegrwyllt_restore(form: u64, text: &[u8], hart: &mut [u64], map: &mut [u64]) -> u64
    ensures value { result ≡ restore_result form text.now hart.old map.old }
    ensures hart_after { hart.new ≡ restored_hart form text.now hart.old map.old }
    ensures map_after { map.new ≡ restored_map form text.now hart.old map.old }
{
    let Some(form) = form_of(form) else {
        return MISFIT;
    };
    let Some(hart) = hart.as_mut_array::<43>() else {
        return MISFIT;
    };
    let Some(map) = map.as_mut_array::<100>() else {
        return MISFIT;
    };
    let given = Hart {
        state: state::reset(0),
    };
    let empty = Map {
        count: 0,
        ranges: [Range {
            first: 0,
            last: 0,
            owner: 0,
        }; 33],
    };
    let read = given.restore(empty, form, text);
    match read.answer.refusal() {
        None => {
            put(read.hart, read.map, hart, map);
            0
        }
        Some(refusal) => u64::from(refusal),
    }
}

// Reads a text of the other form, and writes it in the form asked for, 1 or 2, to the front of a buffer. 0, or the number of the refusal, 4 before 5 before 6
// before 12.
#[tactic(auto, unfolding(crate::specs::Calls::convert_result, crate::specs::Calls::converted_text))]
pub fn tegrwyllt_convert(to: u64, text: &[u8], buffer: &mut [u8]) -> u64
    ensures value { result ≡ convert_result to text.now buffer.old }
    ensures buffer_after { buffer.new ≡ converted_text to text.now buffer.old }
{
    let Some(to) = form_of(to) else {
        return MISFIT;
    };
    refusal_word(hart::convert(to, text, buffer).refusal())
}

// Feeds a scrap of a trace to a reader: each full record steps the hart, with the memory lent to it, and has an answer of four words. As many bytes are taken as
// there is room to answer, and from a broken record on every byte. The number of bytes taken, or 2^64-1 where a length or the stopped word is another.
#[tactic(auto, unfolding(crate::specs::Feeds::feed_call, crate::specs::Feeds::is_place))]
pub fn tegrwyllt_feed(
    carried: &mut [u8],
    place: &mut [u64],
    hart: &mut [u64],
    map: &mut [u64],
    memory: &[u64],
    base: u64,
    scrap: &[u8],
    answers: &mut [u64],
) -> u64
    ensures value { result ≡ (feed_call carried.old place.old hart.old map.old (memory_at memory.now base) scrap.now answers.old).result }
    ensures carried_after { carried.new ≡ (feed_call carried.old place.old hart.old map.old (memory_at memory.now base) scrap.now answers.old).carried }
    ensures place_after { place.new ≡ (feed_call carried.old place.old hart.old map.old (memory_at memory.now base) scrap.now answers.old).place }
    ensures hart_after { hart.new ≡ (feed_call carried.old place.old hart.old map.old (memory_at memory.now base) scrap.now answers.old).hart }
    ensures map_after { map.new ≡ (feed_call carried.old place.old hart.old map.old (memory_at memory.now base) scrap.now answers.old).map }
    ensures answers_after { answers.new ≡ (feed_call carried.old place.old hart.old map.old (memory_at memory.now base) scrap.now answers.old).answers }
{
    let Some(carried) = carried.as_mut_array::<59>() else {
        return MISFIT;
    };
    let Some(place) = place.as_mut_array::<4>() else {
        return MISFIT;
    };
    let Some(hart) = hart.as_mut_array::<43>() else {
        return MISFIT;
    };
    let Some(map) = map.as_mut_array::<100>() else {
        return MISFIT;
    };
    // Joined by `&` as in `tegrwyllt_run`.
    if !(feeding::is_place(place) & (answers.len() % 4 == 0)) {
        return MISFIT;
    }
    let reader = feeding::load_reader(carried, place);
    let memory = Memory {
        words: memory,
        base,
    };
    let next = reader.feed_words(hart, memory, scrap, answers);
    feeding::store_reader(next.reader, (next.filled / 4) as u64, carried, place);
    maps::renew(next.remap, hart, map);
    next.taken as u64
}

// How many bytes a reader carries that are short of a record; 0 after a broken one. 2^64-1 where the length is another.
#[tactic(auto, unfolding(crate::specs::Feeds::left_call))]
pub fn tegrwyllt_left(place: &[u64]) -> u64
    ensures { result ≡ left_call place.now }
{
    let Some(place) = place.as_array::<4>() else {
        return MISFIT;
    };
    feeding::load_reader(&[0; 59], place).left()
}
