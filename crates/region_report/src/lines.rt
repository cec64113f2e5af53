ghost use Rattle.std.specs.Prelude.{◌≡◌, ◌<◌, ◌^◌, map, string_bytes, IfOk};
ghost use Rattle.std.specs.List.{join_with_byte};
ghost use Rattle.text_rows.specs.Rows.{text_of};
ghost use Rattle.region_tiles.specs.Areas.{whole_area};
ghost use Rattle.region_report.specs.RegionText.{area_rows, region_text, tile_row};

use crate::numbers::{eps_word, lam_word, tile_in};
use gate_report::answer_text;
use region_tiles::{Tile, areas_of};
use sidb_units::Memory;
use std::alloc::Global;

/// The region text: what it is; for each tile its permittivities and screening lengths in nm, from the
/// least to the greatest, and what the gate does on the whole of it; the areas of the tiles that work,
/// that fail and that stay open, in units of 10^-4 times 10^-4 nm; and the end.
pub fn region_text(alloc: Global, tiles: &[Tile]) -> Result<String, Memory>
    requires { whole_area tiles.now < 2 ^ 64 }
    ensures { IfOk result (λ text. string_bytes text ≡ region_text tiles.now) }
{
    let mut text = "sidb-region 1\n".to_string(alloc)?;
    let lines = tile_lines(alloc, tiles)?;
    let areas = area_lines(alloc, tiles)?;
    text.push_str(&lines)?;
    text.push_str(&areas)?;
    Ok(text)
}

/// The lines of the tiles.
fn tile_lines(alloc: Global, tiles: &[Tile]) -> Result<String, Memory>
    ensures { IfOk result (λ text. string_bytes text ≡ text_of (map tile_row tiles.now)) }
{
    let mut text = String::new(alloc);
    for k in 0..tiles.len() {
        let line = tile_line(alloc, &tile_in(tiles, k))?;
        text.push_str(&line)?;
        text.push_str("\n")?;
    }
    Ok(text)
}

/// The line of a tile, without a line feed.
fn tile_line(alloc: Global, tile: &Tile) -> Result<String, Memory>
    ensures { IfOk result (λ line. string_bytes line ≡ join_with_byte 32 (tile_row tile.now)) }
{
    let eps_from = eps_word(alloc, &tile.rectangle.strongest)?;
    let eps_to = eps_word(alloc, &tile.rectangle.weakest)?;
    let lam_from = lam_word(alloc, &tile.rectangle.weakest)?;
    let lam_to = lam_word(alloc, &tile.rectangle.strongest)?;
    let answer = answer_text(alloc, tile.answer)?;
    Ok(format!(in alloc; "tile {eps_from} {eps_to} {lam_from} {lam_to} {answer}")?)
}

/// The lines of the areas, and the end.
fn area_lines(alloc: Global, tiles: &[Tile]) -> Result<String, Memory>
    requires { whole_area tiles.now < 2 ^ 64 }
    ensures { IfOk result (λ text. string_bytes text ≡ text_of (area_rows tiles.now)) }
{
    let areas = areas_of(tiles);
    let (works, fails, stays_open) = (areas.works, areas.fails, areas.stays_open);
    Ok(format!(in alloc; "works {works}\nfails {fails}\nopen {stays_open}\nend\n")?)
}
