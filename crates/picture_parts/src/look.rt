// How the picture looks: the colours of light and dark pages, line styles, signs and arrow heads.

/// The styles. Each kind of message has a line style of its own beside its colour.
pub const STYLE: &str = "<style>
.page{fill:#ffffff;stroke:#d0d7de}
.lane{fill:#f3f6f9}
.stripe{fill:#8c959f;fill-opacity:.09}
text{font-family:ui-monospace,SFMono-Regular,Menlo,Consolas,'DejaVu Sans Mono','Liberation Mono',monospace;font-size:12px;fill:#1f2328}
.head{font-weight:600;text-anchor:middle}
.place{fill:#656d76;font-size:10px;text-anchor:end}
.name{font-size:11px;text-anchor:middle}
.word{font-family:system-ui,-apple-system,'Segoe UI','DejaVu Sans','Liberation Sans',sans-serif;font-size:11px}
.bar{stroke-width:1.3}
.new{fill:#ffffff;stroke:#57606a}
.running{fill:#cfe8ff;stroke:#0550ae}
.marked{fill:url(#hatch);stroke:#a04100}
.hatched{fill:#ffe3cc}
.hatch{stroke:#d9864a;stroke-width:1.6}
.stands{fill:#fbe0e6;stroke:#a40e3f}
.awaits{fill:url(#slant);stroke:#a40e3f}
.slanted{fill:#fbe0e6}
.slant{stroke:#d76b8b;stroke-width:1.6}
.waits{fill:#eae3f7;stroke:#6639ba}
rect.plate{stroke:none}
.tail{fill:none;stroke:#57606a;stroke-width:1.5;stroke-dasharray:1.5 3}
.chip{fill:#ffffff;fill-opacity:.92}
.line{fill:none}
.behind{opacity:.3}
.request{stroke:#0a5fb0;stroke-width:1.8}
.answer{stroke:#1a7f37;stroke-width:1.8;stroke-dasharray:8 4}
.ban{stroke:#b5123f;stroke-width:3.2}
.ack{stroke:#7a3fa8;stroke-width:2.4;stroke-dasharray:.1 4.6;stroke-linecap:round}
.unban{stroke:#8a5a00;stroke-width:1.8;stroke-dasharray:9 3 1.5 3}
.link{stroke:#57606a;stroke-width:1.1}
.request-tip{fill:#0a5fb0}
.answer-tip{fill:#1a7f37}
.ban-tip{fill:#b5123f}
.ack-tip{fill:#7a3fa8}
.unban-tip{fill:#8a5a00}
.link-tip{fill:#57606a}
.open{fill:#ffffff;stroke-width:1.4;stroke-dasharray:none}
.request-open{stroke:#0a5fb0}
.answer-open{stroke:#1a7f37}
.ban-open{stroke:#b5123f}
.ack-open{stroke:#7a3fa8}
.unban-open{stroke:#8a5a00}
.sign{fill:none;stroke:#1f2328;stroke-width:1.6;stroke-linecap:round;stroke-linejoin:round}
.solid{fill:#1f2328;stroke:none}
.stop{fill:none;stroke:#b5123f;stroke-width:1.9;stroke-linecap:round;stroke-linejoin:round}
.good{fill:none;stroke:#1a7f37;stroke-width:2;stroke-linecap:round;stroke-linejoin:round}
@media (prefers-color-scheme:dark){
.page{fill:#0d1117;stroke:#30363d}
.lane{fill:#161b22}
text{fill:#e6edf3}
.place{fill:#8d96a0}
.new{fill:#0d1117;stroke:#9da7b1}
.running{fill:#123b66;stroke:#6cb6ff}
.marked{stroke:#f0883e}
.hatched{fill:#4a2a12}
.hatch{stroke:#a85d24}
.stands{fill:#4b1426;stroke:#ff7b9c}
.awaits{stroke:#ff7b9c}
.slanted{fill:#4b1426}
.slant{stroke:#b04464}
.waits{fill:#2f2250;stroke:#b392f0}
.tail{stroke:#9da7b1}
.chip{fill:#0d1117}
.request{stroke:#6cb6ff}
.answer{stroke:#56d364}
.ban{stroke:#ff6b8b}
.ack{stroke:#d2a8ff}
.unban{stroke:#e3b341}
.link{stroke:#9da7b1}
.request-tip{fill:#6cb6ff}
.answer-tip{fill:#56d364}
.ban-tip{fill:#ff6b8b}
.ack-tip{fill:#d2a8ff}
.unban-tip{fill:#e3b341}
.link-tip{fill:#9da7b1}
.open{fill:#0d1117}
.request-open{stroke:#6cb6ff}
.answer-open{stroke:#56d364}
.ban-open{stroke:#ff6b8b}
.ack-open{stroke:#d2a8ff}
.unban-open{stroke:#e3b341}
.sign{stroke:#e6edf3}
.solid{fill:#e6edf3}
.stop{stroke:#ff6b8b}
.good{stroke:#56d364}
}
</style>
";

/// The hatchings of marked tasks and of bans that wait, the head of the lines within a row, and the signs: each stands round its middle.
pub const SIGNS: &str =
    r##"<pattern id="hatch" width="6" height="6" patternUnits="userSpaceOnUse" patternTransform="rotate(45)"><rect class="hatched" width="6" height="6"/><path class="hatch" d="M0 0V6"/></pattern>
<pattern id="slant" width="6" height="6" patternUnits="userSpaceOnUse" patternTransform="rotate(-45)"><rect class="slanted" width="6" height="6"/><path class="slant" d="M0 0V6"/></pattern>
<marker id="link-tip" markerUnits="userSpaceOnUse" markerWidth="7" markerHeight="8" refX="6" refY="4" orient="auto"><path class="link-tip" d="M0 .8L6.6 4L0 7.2Z"/></marker>
<g id="pass"><path class="sign" d="M-3 -4.5L4.5 0L-3 4.5Z"/></g>
<g id="work"><circle class="solid" r="3.2"/></g>
<g id="write"><path class="sign" d="M-4 4L-3.2 1L2.5 -4.6L4.8 -2.4L-1 3.2Z"/></g>
<g id="mark"><path class="stop" d="M-3 5V-5L4.5 -2.2L-3 .6"/></g>
<g id="refused"><circle class="stop" r="5"/><path class="stop" d="M-3.4 3.4L3.4 -3.4"/></g>
<g id="no-slot"><path class="stop" d="M-5 -5H5V5H-5ZM-2.2 -2.2L2.2 2.2M2.2 -2.2L-2.2 2.2"/></g>
<g id="done"><path class="good" d="M-4.5 .5L-1.5 3.8L4.8 -3.6"/></g>
<g id="failed"><path class="stop" d="M-4 -4L4 4M4 -4L-4 4"/></g>
<g id="cancelled"><path class="stop" d="M-3.8 -3.8H3.8V3.8H-3.8Z"/></g>
<g id="listed"><path class="sign" d="M-4 -3.6H4M-4 0H4M-4 3.6H4"/></g>
<g id="replied"><path class="sign" d="M4 -4.5V1.5H-4M-1 -1.6L-4.2 1.5L-1 4.6"/></g>
<g id="not-found"><path class="sign" d="M-2.6 -2.4A2.6 2.6 0 1 1 1.2 -.3Q0 .4 0 1.6M0 4.6V4.7"/></g>
<g id="tick"><circle class="sign" r="5"/><path class="sign" d="M0 -3V0L2.2 1.4"/></g>
"##;
