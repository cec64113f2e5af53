ghost use Rattle.std.specs.Prelude.{◌≡◌, All, map, string_bytes, IfOk};
ghost use Rattle.serde_json.specs.View.{view};
ghost use Rattle.gate_report.specs.DomainText.{IsPrintable};
ghost use Rattle.gate_report.specs.GateJson.{cell_data, domain_data, domain_json};

use crate::answers::answer_text;
use crate::domain_lines::cell_in;
use bdl_pairs::Cell;
use serde_json::{Value, json};
use sidb_units::{Memory, print_dec};
use std::alloc::Global;

/// The domain as one compact line of JSON, with a line feed: what the domain text holds.
pub fn domain_json(alloc: Global, cells: &[Cell]) -> Result<String, Memory>
    requires { All IsPrintable cells.now }
    ensures { IfOk result (λ text. string_bytes text ≡ domain_json cells.now) }
{
    let report = domain_value(alloc, cells)?;
    let mut line = report.to_string(alloc)?;
    line.push_str("\n")?;
    Ok(line)
}

/// The report of a domain.
fn domain_value(alloc: Global, cells: &[Cell]) -> Result<Value, Memory>
    requires { All IsPrintable cells.now }
    ensures { IfOk result (λ value. view value ≡ domain_data cells.now) }
{
    let cells = Value::Array(cell_values(alloc, cells)?);
    Ok(json!(in alloc; { "cells": cells, "kind": "sidb-domain", "version": 1u64 })?)
}

/// The cells.
fn cell_values(alloc: Global, cells: &[Cell]) -> Result<Vec<Value>, Memory>
    requires { All IsPrintable cells.now }
    ensures { IfOk result (λ values. map view values.items ≡ map cell_data cells.now) }
{
    let mut values = Vec::with_capacity(alloc, cells.len())?;
    for k in 0..cells.len() {
        values.push(cell_value(alloc, &cell_in(cells, k))?)?;
    }
    Ok(values)
}

/// A cell.
fn cell_value(alloc: Global, cell: &Cell) -> Result<Value, Memory>
    requires { IsPrintable cell.now }
    ensures { IfOk result (λ value. view value ≡ cell_data cell.now) }
{
    let eps = print_dec(alloc, cell.eps, 4)?;
    let lam = print_dec(alloc, cell.lam, 4)?;
    let answer = answer_text(alloc, cell.answer)?;
    let (eps, lam, answer) = (eps.as_str(), lam.as_str(), answer.as_str());
    Ok(json!(in alloc; { "answer": answer, "eps": eps, "lambda": lam })?)
}
