//! Lanes that lose bits, and what is reported of them: worked apart from this repository's crates.

use super::Slipped;
use crate::tell::Tell::*;

/// The rows.
pub(crate) static ROWS: [Slipped; 8] = [
    // two epochs
    Slipped {
        bits: [910, 910, 907],
        digits: [
            "54534d35d554534d35d554534d35d5cc320bd0ff00fd0fd0ff00fd0f1040ff03f43f40ff03f43f4000fd0fd0ff00fd0fd0ff0001f43f4054534d35d554534d35d554534d35d554534d35d554534d35d554534d35d554534d35d554534d35d5cc320b10d554534d35d554534d35d554534d35",
            "54534d35d5abacb2ca2aabacb2ca2a33cd04d0ff00fd0fd0ff00fd0f1040ff03f43f40ff03f43f4000fd0fd0ff00fd0fd0ff0001f43f4054534d35d554534d35d554534d35d554534d35d554534d35d554534d35d5abacb2ca2aabacb2ca2a33cd0410d554534d35d554534d35d554534d35",
            "54534d35d554534d35d554534d35d5cc320bd0ff00fd0fd0ff00fd0f1040ff03f43f40ff03f40708a0ff01fa1fa0ff01fa1f2080fe07886aaaa9a69a6aaaa9a69a6aaaa9a69a6aaaa9a69a6aaaa9a69a6aaaa9a69a6aaaa9a69a6aaaa9a69a596601a49a6aaaa9a69a6aaaa9a69a6aaaa906",
        ],
        epochs: 2,
        aligned: 2,
        tells: &[
            Run(0, 4),
            Run(4, 8),
            Cut(14),
            Slip(2, 437),
            Run(0, 4),
            Run(4, 8),
            Line(3, 0xff0000),
            Run(0, 12),
        ],
    },
    // no slip
    Slipped {
        bits: [910, 910, 910],
        digits: [
            "54534d35d554534d35d554534d35d5cc320bd0ff00fd0fd0ff00fd0f1040ff03f43f40ff03f43f4000fd0fd0ff00fd0fd0ff0001f43f4054534d35d554534d35d554534d35d554534d35d554534d35d554534d35d554534d35d554534d35d5cc320b10d554534d35d554534d35d554534d35",
            "54534d35d5abacb2ca2aabacb2ca2a33cd04d0ff00fd0fd0ff00fd0f1040ff03f43f40ff03f43f4000fd0fd0ff00fd0fd0ff0001f43f4054534d35d554534d35d554534d35d554534d35d554534d35d554534d35d5abacb2ca2aabacb2ca2a33cd0410d554534d35d554534d35d554534d35",
            "54534d35d554534d35d554534d35d5cc320bd0ff00fd0fd0ff00fd0f1040ff03f43f40ff03f43f4000fd0fd0ff00fd0fd0ff0001f43f4054534d35d554534d35d554534d35d554534d35d554534d35d554534d35d554534d35d554534d35d5cc320b20d554534d35d554534d35d554534d35",
        ],
        epochs: 1,
        aligned: 1,
        tells: &[
            Run(0, 4),
            Run(4, 8),
            Line(90, 0x000000),
            Run(0, 24),
            Run(4, 8),
            Line(3, 0xff0000),
            Run(0, 12),
        ],
    },
    // two slips on two lanes
    Slipped {
        bits: [2105, 2110, 2107],
        digits: [
            "54534d35d554534d35d554534d35d5cc320bd0ff00fd0fd0ff00fd0f1040ff03f43f40ff03f43f4000fd0fd0ff00fd0fd0ff0001f43f4054534d35d554534d35d554534d35d554534d35d554534d35d554534d35d554534d35d554534d35d5cc320bd0ff00fd0fd0ff00fd0f1040ff03f401fa1fa0ff0102e87f80fe07e87f80fe0708a0ff01a29a6aaaa9a69a6aaaa9a69a6aaaa9a69a6aaaa9a69a6aaaa9a69a6aaaa9a69a6aaaa9a69a6aaaa966965980fe07e87f80fe07e87f8000fa1fa0ff01fa1fa0ff0102e87f80fe07e87f80fe0708a0ff01a29a6aaaa9a69a6aaaa9a69a6aaaa9a69a6aaaa9a69a6aaaa9a69a6aaaa966965900a9a69a6aaaa9a69a6aaaa9a69a6aaa01",
            "54534d35d5abacb2ca2aabacb2ca2a33cd04d0ff00fd0fd0ff00fd0f1040ff03f43f40ff03f43f4000fd0fd0ff00fd0fd0ff0001f43f4054534d35d554534d35d554534d35d554534d35d554534d35d554534d35d5abacb2ca2aabacb2ca2a33cd04d0ff00fd0fd0ff00fd0f1040ff03f43f40ff03f43f4000fd0fd0ff00fd0fd0ff0001f43f4054534d35d554534d35d554534d35d554534d35d554534d35d554534d35d5abacb2ca2aabacb2ca2a33cd04e03fff00f80f80ff00f8cf3f00fe03e03f00fef30f80ff00f80f80fffc03e03f00fe03e03f54534d35d554534d35d554534d35d554534d35d5abacb2ca2aabacb2ca2a33cd0410d554534d35d554534d35d554534d35",
            "54534d35d554534d35d554534d35d5cc320bd0ff00fd0fd0ff00fd0f1040ff03f43f40ff03f40708a0ff01fa1fa0ff01fa1f2080fe07886aaaa9a69a6aaaa9a69a6aaaa9a69a6aaaa9a69a6aaaa9a69a6aaaa9a69a6aaaa9a69a6aaaa9a69a596601fce71f00ff01f01f00fff907c07f00fc07c07ffe01f01f00ff01f09f7f00fc07c07f00fc876aaaa9a69a6aaaa9a69a6aaaa9a69a6aaaa9a69a6aaaa9a69a6aaaa9a69a6aaaa9a69a6aaaa9a69a596601fa1fa0ff01fa1fa0ff0102e87f80fe07e87f80fe0708a0ff01fa1fa0ff01fa1f2080fe07886aaaa9a69a6aaaa9a69a6aaaa9a69a6aaaa9a69a6aaaa9a69a6aaaa9a69a596601a29a6aaaa9a69a6aaaa9a69a6aaaa906",
        ],
        epochs: 3,
        aligned: 3,
        tells: &[
            Run(0, 4),
            Run(4, 8),
            Cut(14),
            Slip(2, 437),
            Run(0, 4),
            Run(4, 8),
            Cut(14),
            Slip(0, 1075),
            Run(0, 4),
            Run(4, 8),
            Line(90, 0x00ff00),
            Run(0, 16),
            Run(4, 8),
            Line(3, 0x0000ff),
            Run(0, 12),
        ],
    },
    // strays of two lanes at one place
    Slipped {
        bits: [910, 907, 907],
        digits: [
            "54534d35d554534d35d554534d35d5cc320bd0ff00fd0fd0ff00fd0f1040ff03f43f40ff03f43f4000fd0fd0ff00fd0fd0ff0001f43f4054534d35d554534d35d554534d35d554534d35d554534d35d554534d35d554534d35d554534d35d5cc320b10d554534d35d554534d35d554534d35",
            "54534d35d5abacb2ca2aabacb2ca2a33cd04d0ff00fd0fd0ff00fd0f1040ff03f43f40ff03f40708a0ff01fa1fa0ff01fa1f2080fe07886aaaa9a69a6aaaa9a69a6aaaa9a69a6aaaa9a69a6aaaa9a69a6aaaa9a67a95555659659555565965a69900a29a6aaaa9a69a6aaaa9a69a6aaaa906",
            "54534d35d554534d35d554534d35d5cc320bd0ff00fd0fd0ff00fd0f1040ff03f43f40ff03f40708a0ff01fa1fa0ff01fa1f2080fe07886aaaa9a69a6aaaa9a69a6aaaa9a69a6aaaa9a69a6aaaa9a69a6aaaa9a69a6aaaa9a69a6aaaa9a69a596601a49a6aaaa9a69a6aaaa9a69a6aaaa906",
        ],
        epochs: 2,
        aligned: 2,
        tells: &[
            Run(0, 4),
            Run(4, 8),
            Cut(14),
            Slip(1, 437),
            Run(0, 4),
            Run(4, 8),
            Line(3, 0xff0000),
            Run(0, 12),
        ],
    },
    // a slip before any alignment
    Slipped {
        bits: [2035, 2026, 2035],
        digits: [
            "9a6aaaa9a69a596601fa1fa0ff01fa1fa0ff0102e87f80fe07e87f80fe0708a0ff01fa1fa0ff01fa1f2080fe07886aaaa9a69a6aaaa9a69a6aaaa9a69a6aaaa9a69a6aaaa9a69a6aaaa9a69a6aaaa9a69a6aaaa9a69a596601fa1fa0ff01fa1fa0ff0102e87f80fe07e87f80fe0708a0ff01fa1fa0ff01fa1f2080fe07886aaaa9a69a6aaaa9a69a6aaaa9a69a6aaaa9a69a6aaaa9a69a6aaaa9a69a6aaaa9a69a6aaaa9a69a596601fa1fa0ff01fa1fa0ff0102e87f80fe07e87f80fe0708a0ff01fa1fa0ff01fa1f2080fe07886aaaa9a69a6aaaa9a69a6aaaa9a69a6aaaa9a69a6aaaa9a69a6aaaa9a69a596601a49a6aaaa9a69a6aaaa9a69a6aaaa906",
            "54534d35d5abacb2ca2aabacb2ca2a33cd04d0ff00fd0fd0ff00fd0f1040ff03f43f40ff03142080fe07e87f80fe07e87f8000fa1f20aaa9a69a6aaaa9a69a6aaaa9a69a6aaaa9a69a6aaaa9a69a6aaaa9a69aea55565965955556596595996602e87f80fe07e87f80fe0708a0ff01fa1fa0ff01fa1f2080fe07e87f80fe07e87f8000fa1f20aaa9a69a6aaaa9a69a6aaaa9a69a6aaaa9a69a6aaaa9a69a6aaaa9a69aea55565965955556596595996602f09f7f00fc07c07f00fce71f00ff01f01f00fff907c07f00fc07c07ffe01f01f00ff01f01faaa9a69a6aaaa9a69a6aaaa9a69a6aaaa9a69aea55565965955556596595996602886aaaa9a69a02",
            "9a6aaaa9a69a596601fa1fa0ff01fa1fa0ff0102e87f80fe07e87f80fe0708a0ff01fa1fa0ff01fa1f2080fe07886aaaa9a69a6aaaa9a69a6aaaa9a69a6aaaa9a69a6aaaa9a69a6aaaa9a69a6aaaa9a69a6aaaa9a69a596601fce71f00ff01f01f00fff907c07f00fc07c07ffe01f01f00ff01f09f7f00fc07c07f00fc876aaaa9a69a6aaaa9a69a6aaaa9a69a6aaaa9a69a6aaaa9a69a6aaaa9a69a6aaaa9a69a6aaaa9a69a596601fa1fa0ff01fa1fa0ff0102e87f80fe07e87f80fe0708a0ff01fa1fa0ff01fa1f2080fe07886aaaa9a69a6aaaa9a69a6aaaa9a69a6aaaa9a69a6aaaa9a69a6aaaa9a69a596601a29a6aaaa9a69a6aaaa9a69a6aaaa906",
        ],
        epochs: 2,
        aligned: 1,
        tells: &[
            Run(0, 4),
            Run(4, 8),
            Line(90, 0xff0000),
            Run(0, 24),
            Run(4, 8),
            Line(90, 0x00ff00),
            Run(0, 16),
            Run(4, 8),
            Line(3, 0x0000ff),
            Run(0, 4),
        ],
    },
    // a lane ends within the bits held back
    Slipped {
        bits: [910, 800, 870],
        digits: [
            "54534d35d554534d35d554534d35d5cc320bd0ff00fd0fd0ff00fd0f1040ff03f43f40ff03f43f4000fd0fd0ff00fd0fd0ff0001f43f4054534d35d554534d35d554534d35d554534d35d554534d35d554534d35d554534d35d554534d35d5cc320b10d554534d35d554534d35d554534d35",
            "54534d35d5abacb2ca2aabacb2ca2a33cd04d0ff00fd0fd0ff00fd0f1040ff03f43f40ff03f43f4000fd0fd0ff00fd0fd0ff0001f43f4054534d35d554534d35d554534d35d554534d35d554534d35d554534d35d5abacb2ca2aabacb2ca2a33cd0410d5",
            "54534d35d554534d35d554534d35d5cc320bd0ff00fd0fd0ff00fd0f1040ff03f43f40ff03f40708a0ff01fa1fa0ff01fa1f2080fe07886aaaa9a69a6aaaa9a69a6aaaa9a69a6aaaa9a69a6aaaa9a69a6aaaa9a69a6aaaa9a69a6aaaa9a69a596601a49a6aaaa9a69a6aaaa926",
        ],
        epochs: 2,
        aligned: 2,
        tells: &[
            Run(0, 4),
            Run(4, 8),
            Cut(14),
            Slip(2, 437),
            Run(0, 4),
            Run(4, 8),
            Line(3, 0xff0000),
            Run(0, 1),
        ],
    },
    // a lane that ends before the slip
    Slipped {
        bits: [910, 350, 907],
        digits: [
            "54534d35d554534d35d554534d35d5cc320bd0ff00fd0fd0ff00fd0f1040ff03f43f40ff03f43f4000fd0fd0ff00fd0fd0ff0001f43f4054534d35d554534d35d554534d35d554534d35d554534d35d554534d35d554534d35d554534d35d5cc320b10d554534d35d554534d35d554534d35",
            "54534d35d5abacb2ca2aabacb2ca2a33cd04d0ff00fd0fd0ff00fd0f1040ff03f43f40ff03f43f4000fd0f10",
            "54534d35d554534d35d554534d35d5cc320bd0ff00fd0fd0ff00fd0f1040ff03f43f40ff03f40708a0ff01fa1fa0ff01fa1f2080fe07886aaaa9a69a6aaaa9a69a6aaaa9a69a6aaaa9a69a6aaaa9a69a6aaaa9a69a6aaaa9a69a6aaaa9a69a596601a49a6aaaa9a69a6aaaa9a69a6aaaa906",
        ],
        epochs: 2,
        aligned: 1,
        tells: &[Run(0, 4), Run(4, 8), Cut(14), Slip(2, 437)],
    },
    // a run that is not whole
    Slipped {
        bits: [555, 555, 555],
        digits: [
            "54534d35d554534d35d554534d35d5cc320bd0ff00fd0fd0ff00fd0f1040ff03f43f40ff03f43f4000fd0fd0ff00fd0fd0ff0001f43f4054534d35d554534d35d554534d3505",
            "54534d35d5abacb2ca2aabacb2ca2a33cd04d0ff00fd0fd0ff00fd0f1040ff03f43f40ff03f43f4000fd0fd0ff00fd0fd0ff0001f43f4054534d35d554534d35d554534d3505",
            "54534d35d554534d35d554534d35d5cc320bd0ff00fd0fd0ff00fd0f1040ff03f43f40ff03f40708a0ff01fa1fa0ff01fa1f2080fe07886aaaa9a69a6aaaa9a69a6aaaa9a602",
        ],
        epochs: 1,
        aligned: 1,
        tells: &[
            Run(0, 4),
            Run(4, 8),
            Line(90, 0x000000),
            SomeFault,
            Word(2, 44),
            Word(2, 45),
            Word(2, 46),
            Word(2, 47),
            Word(2, 48),
            Word(2, 49),
            Word(2, 50),
            Word(2, 51),
            Word(2, 52),
            Word(2, 53),
            Word(2, 54),
            Run(0, 11),
        ],
    },
];
