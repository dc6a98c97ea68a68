//! The least cell that goes on from any first cells.

ghost use Rattle.std.specs.Prelude.{◌≡◌, ◌↔◌, ◌<◌, ◌≤◌, ◌+◌, [], IsTrue, List, length};
ghost use Rattle.helix_base.specs.Count.{raised};
ghost use Rattle.helix_profile.specs.Satisfaction.{cell_at};
ghost use Rattle.helix_search.specs.Counting.{CountsGrow};
ghost use Rattle.helix_values.specs.declared.cell.Cell.{Cell};
ghost use Rattle.helix_words.specs.Questions.{IsLeastAnswer};
ghost use Rattle.helix_relations.specs.Asking.{AreAskable, Begins, IsAskable, IsMarkFor, OfField};
ghost use Rattle.helix_relations.specs.Region.{ExtendsTo, IsRegionRow};
ghost use Rattle.helix_relations.specs.RegionGraph.{number_of};
ghost use Rattle.helix_relations.specs.Inner.Searched.{AreKept, HasSome, depth_for, region_of};

use crate::cells::{has_cell, is_cell, least_cell};
use crate::region::Region;
use crate::search::{Fields, search};
use helix_base::{Ledger, Steps};
use helix_search::Level;
use helix_values::{Mark, RowBuf, Slot, cmp_cell};

/// Whether some cell of a field extends where nothing is fixed.
fn has_some<L: Ledger>(
    fields: &Fields<'_>,
    row: &RowBuf,
    index: usize,
    levels: &mut [Level],
    steps: &mut Steps<L>,
) -> bool
    requires kept { AreKept fields.now levels.old }
    requires index { index < length fields.now.nodes.now }
    ensures answer { IsTrue result ↔ HasSome (region_of fields.now)
        (depth_for (length fields.now.nodes.now) (length levels.old)) index }
    ensures counts { CountsGrow steps.old steps.new }
    ensures few { fields.now.relations.now ≡ [] → steps.new.counts.domain ≤ steps.old.counts.domain + 1 }
{
    let node = &fields.nodes[index];
    if node.neighbours.as_slice().is_empty() {
        return has_cell(node, steps);
    }
    search(fields, row, 0, index, Mark::Start, levels, steps)
}

/// Whether the region has a row: each field has a cell that extends.
fn has_row<L: Ledger>(
    fields: &Fields<'_>,
    row: &RowBuf,
    levels: &mut [Level],
    steps: &mut Steps<L>,
) -> bool
    requires { AreKept fields.now levels.old }
    ensures answer { IsTrue result ↔ ((row : List Cell) × IsRegionRow (region_of fields.now) row) }
    ensures counts { CountsGrow steps.old steps.new }
    ensures few { fields.now.relations.now ≡ []
        → steps.new.counts.domain ≤ steps.old.counts.domain + length fields.now.nodes.now }
{
    for index in 0..fields.nodes.len() {
        if !has_some(fields, row, index, levels, steps) {
            return false;
        }
    }
    true
}

/// Whether a row's own cell at a level goes on from those before it, with which some row of the region begins.
fn goes_on<L: Ledger>(
    fields: &Fields<'_>,
    row: &RowBuf,
    level: usize,
    levels: &mut [Level],
    steps: &mut Steps<L>,
) -> bool
    requires kept { AreKept fields.now levels.old }
    requires level { level < length fields.now.nodes.now }
    requires askable { OfField (region_of fields.now).fields level (IsAskable row.now) }
    requires begun { Begins (region_of fields.now) row.now level }
    ensures answer { IsTrue result ↔ ExtendsTo (region_of fields.now) row.now level
        (cell_at row.now (number_of (region_of fields.now) level)) }
    ensures counts { CountsGrow steps.old steps.new }
    ensures few { fields.now.relations.now ≡ [] → steps.new.counts.domain ≤ steps.old.counts.domain }
{
    let node = &fields.nodes[level];
    let own = row.slot(node.place).view();
    if node.neighbours.as_slice().is_empty() {
        return is_cell(node, own);
    }
    if !search(fields, row, level, level, Mark::At(own), levels, steps) {
        return false;
    }
    cmp_cell(levels[0].candidate.view(), own).is_eq()
}

/// Whether some row of a region that has rows begins with the prefix.
fn begins<L: Ledger>(
    fields: &Fields<'_>,
    prefix: &RowBuf,
    level: usize,
    levels: &mut [Level],
    steps: &mut Steps<L>,
) -> bool
    requires kept { AreKept fields.now levels.old }
    requires level { level < length fields.now.nodes.now }
    requires askable { AreAskable (region_of fields.now) level prefix.now }
    requires rows { (row : List Cell) × IsRegionRow (region_of fields.now) row }
    ensures answer { IsTrue result ↔ Begins (region_of fields.now) prefix.now level }
    ensures counts { CountsGrow steps.old steps.new }
    ensures few { fields.now.relations.now ≡ [] → steps.new.counts.domain ≤ steps.old.counts.domain }
{
    for before in 0..level {
        if !goes_on(fields, prefix, before, levels, steps) {
            return false;
        }
    }
    true
}

/// Puts the least cell that goes on from the prefix into a slot, where some row of the region begins with it.
fn least_after<L: Ledger>(
    fields: &Fields<'_>,
    prefix: &RowBuf,
    level: usize,
    mark: Mark<'_>,
    out: &mut Slot,
    levels: &mut [Level],
    steps: &mut Steps<L>,
) -> bool
    requires kept { AreKept fields.now levels.old }
    requires level { level < length fields.now.nodes.now }
    requires begun { Begins (region_of fields.now) prefix.now level }
    requires mark { OfField (region_of fields.now).fields level (IsMarkFor mark) }
    ensures answer { IsLeastAnswer (ExtendsTo (region_of fields.now) prefix.now level) mark.entry result out.old
        out.new }
    ensures counts { CountsGrow steps.old steps.new }
    ensures few { fields.now.relations.now ≡ [] → steps.new.counts.domain ≤ steps.old.counts.domain + 1 }
{
    let node = &fields.nodes[level];
    if node.neighbours.as_slice().is_empty() {
        return least_cell(node, mark, out, steps);
    }
    if !search(fields, prefix, level, level, mark, levels, steps) {
        return false;
    }
    out.set(levels[0].candidate.view());
    true
}

/// The same of any prefix.
fn least_in<L: Ledger>(
    fields: &Fields<'_>,
    prefix: &RowBuf,
    level: usize,
    mark: Mark<'_>,
    out: &mut Slot,
    levels: &mut [Level],
    steps: &mut Steps<L>,
) -> bool
    requires kept { AreKept fields.now levels.old }
    requires level { level < length fields.now.nodes.now }
    requires askable { AreAskable (region_of fields.now) level prefix.now }
    requires mark { OfField (region_of fields.now).fields level (IsMarkFor mark) }
    ensures answer { IsLeastAnswer (ExtendsTo (region_of fields.now) prefix.now level) mark.entry result out.old
        out.new }
    ensures counts { CountsGrow steps.old steps.new }
    ensures few { fields.now.relations.now ≡ []
        → steps.new.counts.domain ≤ steps.old.counts.domain + 1 + length fields.now.nodes.now }
{
    if !has_row(fields, prefix, levels, steps) {
        return false;
    }
    if !begins(fields, prefix, level, levels, steps) {
        return false;
    }
    least_after(fields, prefix, level, mark, out, levels, steps)
}

impl Region {
    /// Puts the least cell that a mark admits into a slot, of those with which the cells of the first `level` fields
    /// extend to a row of the region. Where there is none, as where no row begins with these cells, it answers false,
    /// and the slot stays. It takes no memory.
    pub fn least<L: Ledger>(
        &mut self,
        prefix: &RowBuf,
        level: usize,
        mark: Mark<'_>,
        out: &mut Slot,
        steps: &mut Steps<L>,
    ) -> bool
        requires level { level < length self.old.fields }
        requires prefix { AreAskable self.old level prefix.now }
        requires mark { OfField self.old.fields level (IsMarkFor mark) }
        ensures answer { IsLeastAnswer (ExtendsTo self.old prefix.now level) mark.entry result out.old out.new }
        ensures region { self.new ≡ record self.old { asked = raised self.old.asked } }
        ensures counts { CountsGrow steps.old steps.new }
        ensures few { self.old.relations ≡ []
            → steps.new.counts.domain ≤ steps.old.counts.domain + 1 + length self.old.fields }
    {
        self.asked = self.asked.saturating_add(1);
        let fields = Fields {
            nodes: self.nodes.as_slice(),
            relations: self.relations.as_slice(),
        };
        least_in(
            &fields,
            prefix,
            level,
            mark,
            out,
            self.levels.as_mut_slice(),
            steps,
        )
    }
}
