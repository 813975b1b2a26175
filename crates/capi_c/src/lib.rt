// The interface for C: the exports of the archive. Each is the call of its name in `capi`, which says there what it does, and promises the same.
// The contracts stand here again, since the archive is a crate of its own, and a contract is not handed on to the function that calls.
#![tactic(auto)]

ghost use Rattle.std.specs.Prelude.{◌≡◌};
ghost use Rattle.paging.specs.Memory.{memory_at};
ghost use Rattle.capi.specs.Calls.{make_result, made_hart, made_map, step_call, run_call, query_result, query_answered, save_result, saved_text};
ghost use Rattle.capi.specs.Feeds.{feed_call, left_call};
ghost use Rattle.capi.specs.Calls.{restore_result, restored_hart, restored_map, convert_result, converted_text};

#[unsafe(no_mangle)]
pub extern "C" fn tegrwyllt_make(grain: u64, hart: &mut [u64], map: &mut [u64]) -> u64
    ensures value { result ≡ make_result hart.old map.old }
    ensures hart_after { hart.new ≡ made_hart grain hart.old map.old }
    ensures map_after { map.new ≡ made_map grain hart.old map.old }
{
    capi::tegrwyllt_make(grain, hart, map)
}

#[unsafe(no_mangle)]
pub extern "C" fn tegrwyllt_step(
    hart: &mut [u64],
    map: &mut [u64],
    memory: &[u64],
    base: u64,
    step: u64,
    a: u64,
    b: u64,
    answer: &mut [u64],
) -> u64
    ensures value { result ≡ (step_call hart.old map.old (memory_at memory.now base) step a b answer.old).result }
    ensures hart_after { hart.new ≡ (step_call hart.old map.old (memory_at memory.now base) step a b answer.old).hart }
    ensures map_after { map.new ≡ (step_call hart.old map.old (memory_at memory.now base) step a b answer.old).map }
    ensures answer_after { answer.new ≡ (step_call hart.old map.old (memory_at memory.now base) step a b answer.old).answers }
{
    capi::tegrwyllt_step(hart, map, memory, base, step, a, b, answer)
}

#[unsafe(no_mangle)]
pub extern "C" fn tegrwyllt_run(
    hart: &mut [u64],
    map: &mut [u64],
    memory: &[u64],
    base: u64,
    steps: &[u64],
    answers: &mut [u64],
) -> u64
    ensures value { result ≡ (run_call hart.old map.old (memory_at memory.now base) steps.now answers.old).result }
    ensures hart_after { hart.new ≡ (run_call hart.old map.old (memory_at memory.now base) steps.now answers.old).hart }
    ensures map_after { map.new ≡ (run_call hart.old map.old (memory_at memory.now base) steps.now answers.old).map }
    ensures answers_after { answers.new ≡ (run_call hart.old map.old (memory_at memory.now base) steps.now answers.old).answers }
{
    capi::tegrwyllt_run(hart, map, memory, base, steps, answers)
}

#[unsafe(no_mangle)]
pub extern "C" fn tegrwyllt_query(
    hart: &[u64],
    map: &[u64],
    mode: u64,
    kind: u64,
    address: u64,
    size: u64,
    answer: &mut [u64],
) -> u64
    ensures value { result ≡ query_result hart.now map.now mode kind answer.old }
    ensures answer_after { answer.new ≡ query_answered hart.now map.now mode kind address size answer.old }
{
    capi::tegrwyllt_query(hart, map, mode, kind, address, size, answer)
}

#[unsafe(no_mangle)]
pub extern "C" fn tegrwyllt_save(form: u64, hart: &[u64], text: &mut [u8]) -> u64
    ensures value { result ≡ save_result form hart.now text.old }
    ensures text_after { text.new ≡ saved_text form hart.now text.old }
{
    capi::tegrwyllt_save(form, hart, text)
}

#[unsafe(no_mangle)]
pub extern "C" fn tegrwyllt_restore(
    form: u64,
    text: &[u8],
    hart: &mut [u64],
    map: &mut [u64],
) -> u64
    ensures value { result ≡ restore_result form text.now hart.old map.old }
    ensures hart_after { hart.new ≡ restored_hart form text.now hart.old map.old }
    ensures map_after { map.new ≡ restored_map form text.now hart.old map.old }
{
    capi::tegrwyllt_restore(form, text, hart, map)
}

#[unsafe(no_mangle)]
pub extern "C" fn tegrwyllt_convert(to: u64, text: &[u8], buffer: &mut [u8]) -> u64
    ensures value { result ≡ convert_result to text.now buffer.old }
    ensures buffer_after { buffer.new ≡ converted_text to text.now buffer.old }
{
    capi::tegrwyllt_convert(to, text, buffer)
}

#[unsafe(no_mangle)]
pub extern "C" fn tegrwyllt_feed(
    carried: &mut [u8],
    place: &mut [u64],
    hart: &mut [u64],
    map: &mut [u64],
    memory: &[u64],
    base: u64,
    scrap: &[u8],
    answers: &mut [u64],
) -> u64
    ensures value { result ≡ (feed_call carried.old place.old hart.old map.old (memory_at memory.now base) scrap.now answers.old).result }
    ensures carried_after { carried.new ≡ (feed_call carried.old place.old hart.old map.old (memory_at memory.now base) scrap.now answers.old).carried }
    ensures place_after { place.new ≡ (feed_call carried.old place.old hart.old map.old (memory_at memory.now base) scrap.now answers.old).place }
    ensures hart_after { hart.new ≡ (feed_call carried.old place.old hart.old map.old (memory_at memory.now base) scrap.now answers.old).hart }
    ensures map_after { map.new ≡ (feed_call carried.old place.old hart.old map.old (memory_at memory.now base) scrap.now answers.old).map }
    ensures answers_after { answers.new ≡ (feed_call carried.old place.old hart.old map.old (memory_at memory.now base) scrap.now answers.old).answers }
{
    capi::tegrwyllt_feed(carried, place, hart, map, memory, base, scrap, answers)
}

#[unsafe(no_mangle)]
pub extern "C" fn tegrwyllt_left(place: &[u64]) -> u64
    ensures { result ≡ left_call place.now }
{
    capi::tegrwyllt_left(place)
}
