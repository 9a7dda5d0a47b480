// Doors for C and Rust: each entry of the library under a plain name, with its answer as four numbers, and an amount as
// a fifth.
#![tactic(auto)]

ghost use Rattle.std.specs.Prelude.{◌≡◌};
ghost use Rattle.model.specs.Archive.{first_edition, second_edition};
ghost use Rattle.model.specs.Refusals.{outcome, read_tree, judge_plan, plan_left, plan_best, plan_level, plan_single};
ghost use Rattle.model.specs.Refusals.{plan_pair, plan_rightmost, plan_depth_first, write_archive, read_left};
ghost use Rattle.model.specs.Refusals.{read_archive};
ghost use Rattle.model.specs.Refusals.{convert_archive, print_sheets, price_plan, save_best};
ghost use Rattle.model.specs.Refusals.{refusal_answer, tree_told, verdict_told, plan_told, price_told};
ghost use Rattle.std.specs.declared.result.Result.TheVariants.{Ok};
ghost use Rattle.embed.specs.Figures.{figures_of, with_cents, with_saving, price_answer, saving_answer, amount_told};
ghost use Rattle.embed.specs.Left.{told, saving_left, WeightFigures, JudgeFigures, PlanFigures, BestFigures};
ghost use Rattle.embed.specs.Left.{QuickFigures, WriteFigures, ReadFigures, ConvertFigures, PrintFigures};
ghost use Rattle.embed.specs.Left.{PriceFigures, SavingFigures};

use model::{PlanSize, Price, Refusal, Saving, Verdict};
use table::Tree;

// A number and a place, and the verdict's page count and root weight, both 0 unless the number is 0.
#[repr(C)]
#[derive(Default, Drop)]
pub struct Figures {
    pub number: u32,
    pub place: u32,
    pub pages: u32,
    pub root: u32,
}

// The figures of a plan, and its cents, 0 unless the number is 0.
#[repr(C)]
#[derive(Drop)]
pub struct PriceAnswer {
    pub number: u32,
    pub place: u32,
    pub pages: u32,
    pub root: u32,
    pub cents: u32,
}

// The figures of the best plan, and the saving in cents, of either sign, 0 unless the number is 0.
#[repr(C)]
#[derive(Drop)]
pub struct SavingAnswer {
    pub number: u32,
    pub place: u32,
    pub pages: u32,
    pub root: u32,
    pub saving: i32,
}

impl From<Refusal> for Figures {
    ghost from_gives = { λ refusal figures. figures ≡ figures_of (refusal_answer refusal) };

    fn from(refusal: Refusal) -> Figures {
        Figures {
            number: refusal.number(),
            place: refusal.place(),
            ..Figures::default()
        }
    }
}

impl From<PlanSize> for Figures {
    ghost from_gives = { λ size figures. figures ≡ figures_of (plan_told (Ok size)) };

    fn from(size: PlanSize) -> Figures {
        Figures {
            pages: size.pages,
            root: size.root,
            ..Figures::default()
        }
    }
}

impl From<Result<PlanSize, Refusal>> for Figures {
    ghost from_gives = { λ planned figures. figures ≡ figures_of (plan_told planned) };

    fn from(planned: Result<PlanSize, Refusal>) -> Figures {
        match planned {
            Ok(size) => size.into(),
            Err(refusal) => refusal.into(),
        }
    }
}

impl From<Result<Verdict, Refusal>> for Figures {
    ghost from_gives = { λ judged figures. figures ≡ figures_of (verdict_told judged) };

    fn from(judged: Result<Verdict, Refusal>) -> Figures {
        judged.and_then(Verdict::feasible).into()
    }
}

impl From<Result<Tree<'_>, Refusal>> for Figures {
    ghost from_gives = { λ tree figures. figures ≡ figures_of (tree_told tree) };

    fn from(tree: Result<Tree, Refusal>) -> Figures {
        match tree {
            Ok(_) => Figures::default(),
            Err(refusal) => refusal.into(),
        }
    }
}

impl PriceAnswer {
    fn with_cents(judged: Figures, cents: u32) -> PriceAnswer
        ensures { result ≡ with_cents judged cents }
    {
        PriceAnswer {
            number: judged.number,
            place: judged.place,
            pages: judged.pages,
            root: judged.root,
            cents,
        }
    }
}

impl From<Result<Price, Refusal>> for PriceAnswer {
    ghost from_gives = { λ priced answer. answer ≡ price_answer (price_told priced) };

    fn from(priced: Result<Price, Refusal>) -> PriceAnswer {
        match priced {
            Ok(price) => PriceAnswer::with_cents(price.plan.into(), price.cents),
            Err(refusal) => PriceAnswer::with_cents(refusal.into(), 0),
        }
    }
}

impl SavingAnswer {
    fn with_saving(best: Figures, saving: i32) -> SavingAnswer
        ensures { result ≡ with_saving best saving }
    {
        SavingAnswer {
            number: best.number,
            place: best.place,
            pages: best.pages,
            root: best.root,
            saving,
        }
    }
}

impl From<Result<Saving, Refusal>> for SavingAnswer {
    ghost from_gives = { λ saved answer. answer ≡ saving_answer (amount_told saved) };

    fn from(saved: Result<Saving, Refusal>) -> SavingAnswer {
        match saved {
            Ok(saved) => SavingAnswer::with_saving(saved.plan.into(), saved.saving),
            Err(refusal) => SavingAnswer::with_saving(refusal.into(), 0),
        }
    }
}

#[unsafe(no_mangle)]
pub extern "C" fn balduqen_read_tree(table: &[u8]) -> Figures
    ensures value { result ≡ figures_of (read_tree table.now) }
    ensures weight_figures { WeightFigures table.now result }
{
    table::read_tree(table).into()
}

#[unsafe(no_mangle)]
pub extern "C" fn balduqen_judge(table: &[u8], marks: &[u8]) -> Figures
    ensures value { result ≡ figures_of (judge_plan table.now marks.now) }
    ensures judge_figures { JudgeFigures table.now marks.now result }
{
    judge::judge_plan(table, marks).into()
}

#[unsafe(no_mangle)]
pub extern "C" fn balduqen_plan_best(table: &[u8], marks: &mut [u8], scratch: &mut [u32]) -> Figures
    ensures scratch_after { plan_left result marks.new scratch.new
        ≡ told figures_of (plan_best table.now marks.old scratch.old) }
    ensures plan_figures { PlanFigures table.now marks.old scratch.old
        result marks.new scratch.new }
    ensures best_figures { BestFigures table.now marks.old scratch.old
        result marks.new }
{
    planner::plan_best(table, marks, scratch).into()
}

#[unsafe(no_mangle)]
pub extern "C" fn balduqen_plan_level(
    table: &[u8],
    marks: &mut [u8],
    scratch: &mut [u32],
) -> Figures
    ensures scratch_after { plan_left result marks.new scratch.new
        ≡ told figures_of (plan_level table.now marks.old scratch.old) }
    ensures plan_figures { PlanFigures table.now marks.old scratch.old
        result marks.new scratch.new }
{
    planner::plan_level(table, marks, scratch).into()
}

#[unsafe(no_mangle)]
pub extern "C" fn balduqen_plan_single(
    table: &[u8],
    marks: &mut [u8],
    scratch: &mut [u32],
) -> Figures
    ensures scratch_after { plan_left result marks.new scratch.new
        ≡ told figures_of (plan_single table.now marks.old scratch.old) }
    ensures plan_figures { PlanFigures table.now marks.old scratch.old
        result marks.new scratch.new }
{
    planner::plan_single(table, marks, scratch).into()
}

#[unsafe(no_mangle)]
pub extern "C" fn balduqen_plan_pair(table: &[u8], marks: &mut [u8], scratch: &mut [u32]) -> Figures
    ensures scratch_after { plan_left result marks.new scratch.new
        ≡ told figures_of (plan_pair table.now marks.old scratch.old) }
    ensures plan_figures { PlanFigures table.now marks.old scratch.old
        result marks.new scratch.new }
{
    planner::plan_pair(table, marks, scratch).into()
}

#[unsafe(no_mangle)]
pub extern "C" fn balduqen_plan_rightmost(
    table: &[u8],
    marks: &mut [u8],
    scratch: &mut [u32],
) -> Figures
    ensures scratch_after { plan_left result marks.new scratch.new
        ≡ told figures_of (plan_rightmost table.now marks.old scratch.old) }
    ensures plan_figures { PlanFigures table.now marks.old scratch.old
        result marks.new scratch.new }
    ensures quick_figures { QuickFigures table.now result }
{
    planner::plan_rightmost(table, marks, scratch).into()
}

#[unsafe(no_mangle)]
pub extern "C" fn balduqen_plan_depth_first(
    table: &[u8],
    marks: &mut [u8],
    scratch: &mut [u32],
) -> Figures
    ensures scratch_after { plan_left result marks.new scratch.new
        ≡ told figures_of (plan_depth_first table.now marks.old scratch.old) }
    ensures plan_figures { PlanFigures table.now marks.old scratch.old
        result marks.new scratch.new }
    ensures quick_figures { QuickFigures table.now result }
{
    planner::plan_depth_first(table, marks, scratch).into()
}

#[unsafe(no_mangle)]
pub extern "C" fn balduqen_write_archive(table: &[u8], marks: &[u8], archive: &mut [u8]) -> Figures
    ensures archive_after { outcome result archive.new
        ≡ told figures_of
        (write_archive first_edition table.now marks.now archive.old) }
    ensures write_figures { WriteFigures first_edition table.now marks.now archive.old
        result archive.new }
{
    writer::write_archive(table, marks, archive).into()
}

#[unsafe(no_mangle)]
pub extern "C" fn balduqen_read_archive(
    archive: &[u8],
    table: &mut [u8],
    marks: &mut [u8],
) -> Figures
    ensures marks_after { read_left result table.new marks.new
        ≡ told figures_of
        (read_archive first_edition archive.now table.old marks.old) }
    ensures read_figures { ReadFigures first_edition second_edition archive.now table.old
        marks.old result table.new marks.new }
{
    archive::read_archive(archive, table, marks).into()
}

#[unsafe(no_mangle)]
pub extern "C" fn balduqen_write_archive2(table: &[u8], marks: &[u8], archive: &mut [u8]) -> Figures
    ensures archive_after { outcome result archive.new
        ≡ told figures_of
        (write_archive second_edition table.now marks.now archive.old) }
    ensures write_figures { WriteFigures second_edition table.now marks.now archive.old
        result archive.new }
{
    writer::write_archive2(table, marks, archive).into()
}

#[unsafe(no_mangle)]
pub extern "C" fn balduqen_read_archive2(
    archive: &[u8],
    table: &mut [u8],
    marks: &mut [u8],
) -> Figures
    ensures marks_after { read_left result table.new marks.new
        ≡ told figures_of
        (read_archive second_edition archive.now table.old marks.old) }
    ensures read_figures { ReadFigures second_edition first_edition archive.now table.old
        marks.old result table.new marks.new }
{
    archive::read_archive2(archive, table, marks).into()
}

#[unsafe(no_mangle)]
pub extern "C" fn balduqen_convert_to_2(archive: &[u8], out: &mut [u8]) -> Figures
    ensures out_after { outcome result out.new
        ≡ told figures_of (convert_archive first_edition second_edition archive.now out.old) }
    ensures convert_figures { ConvertFigures first_edition second_edition archive.now out.old
        result out.new }
{
    converters::convert_to_2(archive, out).into()
}

#[unsafe(no_mangle)]
pub extern "C" fn balduqen_convert_to_1(archive: &[u8], out: &mut [u8]) -> Figures
    ensures out_after { outcome result out.new
        ≡ told figures_of (convert_archive second_edition first_edition archive.now out.old) }
    ensures convert_figures { ConvertFigures second_edition first_edition archive.now out.old
        result out.new }
{
    converters::convert_to_1(archive, out).into()
}

#[unsafe(no_mangle)]
pub extern "C" fn balduqen_print_sheets(table: &[u8], marks: &[u8], out: &mut [u8]) -> Figures
    ensures out_after { outcome result out.new
        ≡ told figures_of (print_sheets table.now marks.now out.old) }
    ensures print_figures { PrintFigures table.now marks.now out.old
        result out.new }
{
    sheets::print_sheets(table, marks, out).into()
}

#[unsafe(no_mangle)]
pub extern "C" fn balduqen_price(table: &[u8], marks: &[u8]) -> PriceAnswer
    ensures value { result ≡ price_answer (price_plan table.now marks.now) }
    ensures price_figures { PriceFigures table.now marks.now result }
{
    price::price(table, marks).into()
}

#[unsafe(no_mangle)]
pub extern "C" fn balduqen_saving(
    table: &[u8],
    marks: &mut [u8],
    scratch: &mut [u32],
) -> SavingAnswer
    ensures scratch_after { plan_left result marks.new scratch.new
        ≡ saving_left (save_best table.now marks.old scratch.old) }
    ensures saving_figures { SavingFigures table.now marks.old scratch.old
        result marks.new scratch.new }
{
    price::saving(table, marks, scratch).into()
}
