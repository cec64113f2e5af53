ghost use Rattle.std.specs.Prelude.{◌≡◌, ◌<◌, ◌^◌, map, string_bytes, IfOk};
ghost use Rattle.serde_json.specs.View.{view};
ghost use Rattle.region_tiles.specs.Areas.{whole_area};
ghost use Rattle.region_report.specs.RegionJson.{region_data, region_json, tile_data};

use crate::numbers::{eps_word, lam_word, tile_in};
use gate_report::answer_text;
use region_tiles::{Tile, areas_of};
use serde_json::{Value, json};
use sidb_units::Memory;
use std::alloc::Global;

/// The region as one compact line of JSON, with a line feed: what the region text holds.
pub fn region_json(alloc: Global, tiles: &[Tile]) -> Result<String, Memory>
    requires { whole_area tiles.now < 2 ^ 64 }
    ensures { IfOk result (λ text. string_bytes text ≡ region_json tiles.now) }
{
    let report = region_value(alloc, tiles)?;
    let mut line = report.to_string(alloc)?;
    line.push_str("\n")?;
    Ok(line)
}

/// The report of a region.
fn region_value(alloc: Global, tiles: &[Tile]) -> Result<Value, Memory>
    requires { whole_area tiles.now < 2 ^ 64 }
    ensures { IfOk result (λ value. view value ≡ region_data tiles.now) }
{
    let areas = areas_of(tiles);
    let (works, fails, stays_open) = (areas.works, areas.fails, areas.stays_open);
    let tiles = Value::Array(tile_values(alloc, tiles)?);
    Ok(json!(in alloc; {
        "tiles": tiles, "fails": fails, "kind": "sidb-region", "open": stays_open, "version": 1u64,
        "works": works
    })?)
}

/// The tiles.
fn tile_values(alloc: Global, tiles: &[Tile]) -> Result<Vec<Value>, Memory>
    ensures { IfOk result (λ values. map view values.items ≡ map tile_data tiles.now) }
{
    let mut values = Vec::with_capacity(alloc, tiles.len())?;
    for k in 0..tiles.len() {
        values.push(tile_value(alloc, &tile_in(tiles, k))?)?;
    }
    Ok(values)
}

/// A tile.
fn tile_value(alloc: Global, tile: &Tile) -> Result<Value, Memory>
    ensures { IfOk result (λ value. view value ≡ tile_data tile.now) }
{
    let eps_from = eps_word(alloc, &tile.rectangle.strongest)?;
    let eps_to = eps_word(alloc, &tile.rectangle.weakest)?;
    let lam_from = lam_word(alloc, &tile.rectangle.weakest)?;
    let lam_to = lam_word(alloc, &tile.rectangle.strongest)?;
    let answer = answer_text(alloc, tile.answer)?;
    let (eps_from, eps_to) = (eps_from.as_str(), eps_to.as_str());
    let (lam_from, lam_to, answer) = (lam_from.as_str(), lam_to.as_str(), answer.as_str());
    Ok(json!(in alloc; {
        "answer": answer, "eps": [eps_from, eps_to], "lambda": [lam_from, lam_to]
    })?)
}
