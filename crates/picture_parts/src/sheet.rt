// How the page looks, beside its picture.

/// The styles of the page. The picture and what is told of an event scroll each for itself, so that neither moves the other; on a narrow
/// screen the one stands below the other.
pub const SHEET: &str = "
:root{color-scheme:light dark;--ground:#ffffff;--ink:#1f2328;--faint:#57606a;--rule:#d0d7de;--soft:#f3f6f9;--chosen:#ffe9a8;--cause:#d7f0dc;--effect:#dce9ff;--edge:#0550ae}
@media (prefers-color-scheme:dark){:root{--ground:#0d1117;--ink:#e6edf3;--faint:#9da7b1;--rule:#30363d;--soft:#161b22;--chosen:#5c4a0c;--cause:#143d22;--effect:#16335e;--edge:#6cb6ff}}
*{box-sizing:border-box}
html,body{height:100%;margin:0}
body{display:grid;grid-template:auto minmax(0,1fr)/minmax(0,1fr) 20rem;height:100dvh;background:var(--ground);color:var(--ink);font:14px/1.45 system-ui,-apple-system,'Segoe UI','DejaVu Sans','Liberation Sans',sans-serif}
header{grid-column:1/-1;display:flex;flex-wrap:wrap;gap:.4rem .8rem;align-items:center;padding:.5rem .8rem;border-bottom:1px solid var(--rule)}
h1{margin:0;font-size:1.05rem}
h2{margin:0 0 .3rem;font-size:1rem}
select,button{font:inherit;color:inherit;background:var(--soft);border:1px solid var(--rule);border-radius:5px;padding:.2rem .55rem}
select{max-width:22rem}
button{cursor:pointer}
:focus-visible{outline:2px solid var(--edge);outline-offset:1px}
kbd{border:1px solid var(--rule);border-radius:3px;padding:0 .25em;font:inherit;font-size:.85em}
.keys{color:var(--faint);font-size:.85rem}
#box{overflow:auto}
aside{overflow:auto;padding:.7rem .8rem;border-left:1px solid var(--rule)}
svg.wide{display:block;max-width:max(100%,var(--wide)*.85);height:auto}
#heads{position:sticky;top:0;z-index:1}
#heads .ground{fill:var(--ground)}
.over{pointer-events:none}
.event{cursor:pointer}
.row{fill:transparent}
.row.odd{fill:#8c959f;fill-opacity:.09}
.event text{pointer-events:none}
.event:hover .row{fill:#8c959f;fill-opacity:.25}
.event.cause .row{fill:var(--cause);fill-opacity:1}
.event.effect .row{fill:var(--effect);fill-opacity:1}
.event[aria-selected=true] .row{fill:var(--chosen);fill-opacity:1;stroke:var(--edge);stroke-width:1.5}
#events:focus{outline:none}
#events:focus-visible .event[aria-selected=true] .row{stroke-width:3}
.lit path{stroke-width:4.5}
path.by{fill:none;stroke:var(--faint);stroke-width:1.2}
text.by{fill:var(--faint);font-size:10px;text-anchor:end}
path.top{stroke:var(--rule);stroke-width:1}
.away{display:none}
#told{min-height:8rem}
#told p{margin:.3rem 0}
#told code{display:block;overflow-wrap:anywhere;padding:.3rem .45rem;border-radius:5px;background:var(--soft);font:13px/1.4 ui-monospace,SFMono-Regular,Menlo,Consolas,'DejaVu Sans Mono','Liberation Mono',monospace}
dl{margin:.5rem 0}
dt{color:var(--faint);font-size:.85rem}
dd{margin:0 0 .35rem;overflow-wrap:anywhere}
dd button{display:block;width:100%;margin:.12rem 0;text-align:left;overflow-wrap:anywhere}
dd .cause{background:var(--cause)}
dd .effect{background:var(--effect)}
summary{cursor:pointer;padding:.25rem 0}
details{border-top:1px solid var(--rule);overflow-x:auto}
table{border-collapse:collapse;font-size:.85rem}
th,td{text-align:left;padding:.1rem .6rem .1rem 0;vertical-align:top;white-space:nowrap}
td:nth-child(n+4){white-space:normal;overflow-wrap:anywhere;min-width:14rem}
.signs{list-style:none;margin:.3rem 0;padding:0;columns:2;font-size:.85rem}
.signs li{display:flex;align-items:center;gap:.4rem;break-inside:avoid}
.signs svg{flex:none}
@media (max-width:760px){
body{grid-template:auto minmax(0,1fr) minmax(9rem,38%)/minmax(0,1fr)}
aside{border-left:0;border-top:1px solid var(--rule)}
.keys{display:none}
select{max-width:11rem}
}
@media print{html,body{height:auto}body,#box,aside{display:block;overflow:visible}#heads{position:static}}
";
