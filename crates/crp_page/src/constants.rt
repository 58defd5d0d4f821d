//! The parts of the page that are the same in each.

/// The head of the page: its type, its title and its style sheet, which is still open.
pub const HEAD_OF_PAGE: &[u8] = br#"<!DOCTYPE html>
<html lang="en"><head><meta charset="utf-8"/><meta name="viewport" content="width=device-width"/><title>Crane moves</title><style>
:root{color-scheme:light dark;--p:#fff;--i:#15202e;--u:#5a6675;--f:#f1f4f7;--r:#dfe4ea;--k0:#79b3ec;--k1:#9ac5f1;--k2:#b7d5f5;--k3:#cfe3f8;--k4:#e2eefb;--ks:#d9dcdf;--km:#ffa04d;--kt:#4fc98a;--d:#c2410c;--g:#0d7a43}
@media screen and (prefers-color-scheme:dark){:root{--p:#0f151c;--i:#eef3f8;--u:#98a5b3;--f:#18202a;--r:#2a3541;--k0:#2f73bd;--k1:#2a619d;--k2:#25507f;--k3:#203f62;--k4:#1c324b;--ks:#3d4650;--km:#bf4a0d;--kt:#17804c;--d:#ff8a47;--g:#3ddc8b}}
*{box-sizing:border-box}
body{margin:0;background:var(--p);color:var(--i);font:15px/1.45 system-ui,"Segoe UI",Roboto,"DejaVu Sans",sans-serif}
main{margin:0 auto;padding:24px;max-width:1240px}
h1{font-size:26px;margin:0 0 4px}
h2{font-size:20px;margin:0}
p{margin:0 0 8px}
a{color:inherit}
.h{font-size:13px;color:var(--u)}
code{unicode-bidi:isolate;overflow-wrap:anywhere;font:12px ui-monospace,Menlo,Consolas,"DejaVu Sans Mono",monospace;white-space:pre-wrap}
table{border-collapse:collapse;margin:16px 0;font-variant-numeric:tabular-nums}
th,td{padding:4px 12px;text-align:right;border-bottom:1px solid var(--r)}
th:first-child,td:nth-child(2),th:nth-child(2){text-align:left}
thead th{color:var(--u);font-weight:500}
tfoot th,tfoot td{font-weight:600;border:0}
td span::before,section p span::before{content:"\25CF\A0";color:var(--g)}
td .vb::before,section p .vb::before{color:#d39b00}
td .vn::before,section p .vn::before{color:var(--d)}
ul{list-style:none;padding:0;margin:12px 0;display:flex;flex-wrap:wrap;gap:6px 20px;font-size:13px}
ul li{display:flex;align-items:center;gap:8px}
ul svg{width:40px;flex:none}
section{padding-top:28px}
section p a{margin-left:14px}
section>div>div{display:grid;grid-template-columns:repeat(auto-fill,minmax(var(--c),1fr));gap:14px 20px}
figure{margin:0;break-inside:avoid;content-visibility:auto;contain-intrinsic-height:auto var(--h)}
figure svg{display:block;width:100%;max-width:var(--w)}
figcaption{font-size:13px;padding-left:16px}
ol{margin:0;padding-left:22px;columns:220px}
ol li::marker{font-weight:600;color:var(--d)}
ol .t::marker{color:var(--g)}
.z{position:absolute;width:0;height:0}
text{font:9.5px ui-monospace,Menlo,Consolas,"DejaVu Sans Mono",monospace;fill:var(--i);white-space:pre}
.l{font-size:13.3px;font-weight:700}
.q{fill:var(--u)}
.w{font-size:11px;font-weight:700;fill:var(--p);text-anchor:middle}
path{fill:none;stroke-width:28}
.k0{stroke:var(--k0)}.k1{stroke:var(--k1)}.k2{stroke:var(--k2)}.k3{stroke:var(--k3)}.k4{stroke:var(--k4)}.ks{stroke:var(--ks)}.km{stroke:var(--km)}.kt{stroke:var(--kt)}
.f{stroke:var(--f)}
.g,.a,.o,.e,.u{stroke-width:2;stroke:var(--d)}
.g{stroke:var(--u)}
.o,.e{stroke-dasharray:4 3}
.e{stroke:var(--g)}
.u{stroke:var(--i)}
.b{fill:var(--i)}
.p{stroke:var(--d);stroke-width:18}
@page{size:A4;margin:13mm 10mm 8mm;@top-left{content:"Crane moves";font:9pt sans-serif}@top-right{content:"sheet " counter(page) " of " counter(pages);font:9pt sans-serif}}
@page wide{size:A4 landscape}
@media print{section p a,.s{display:none}main{padding:0;max-width:none}body{font-size:12px}h1{font-size:18px}table{margin:6px 0}ul{font-size:11px;margin:4px 0;gap:2px 14px}ul svg{width:30px}th,td{padding:1px 10px}tfoot{display:table-row-group}tr,ul,figure,section,header{break-inside:avoid}main:has(section:target)>:not(:target){display:none}section{display:table;width:100%;padding:0;margin:0 0 12px}header{display:table-header-group}header h2{font-size:15px;display:inline}header p{display:inline;margin:0 0 0 10px}section>div{display:table-row-group}section>div>div{display:block;font-size:0}figure{content-visibility:visible;display:inline-block;vertical-align:top;width:var(--q);padding:6px 8px 0 0}code{font-size:9px}figcaption{font-size:9.5px;line-height:1.3;padding-left:8px}ol{columns:auto;padding-left:18px}ol li::before{content:"\2610\A0"}*{-webkit-print-color-adjust:exact;print-color-adjust:exact}}
"#;

/// The head of the table of the bays.
pub const TABLE_HEAD: &[u8] =
    br#"<table><thead><tr><th scope="col">Bay</th><th scope="col">Verdict</th><th scope="col">Moves</th><th scope="col">Relocations</th><th scope="col">Takes</th><th scope="col">Left</th></tr></thead><tbody>
"#;

/// What the colours and marks of the pictures mean.
pub const KEY: &[u8] =
    br#"<p class="h">Each move was followed over the yard list and can be made. The verdicts are as the report says; run crp audit to check them: optimal 12 says that no plan has fewer than 12 relocations. 4.5 is row 4, tier 5; tier 1 is the lowest. <span class="s">On paper bays share a sheet where they fit; go to a bay first to print it alone.</span></p>
<ul>
<li><svg viewBox="18 26 40 32" aria-hidden="true"><path class="k0" d="M20 42h36"/><text class="l" x="14" y="52" textLength="40" lengthAdjust="spacingAndGlyphs"> 3161</text><text class="n" x="13" y="38" textLength="40" lengthAdjust="spacingAndGlyphs">      3</text></svg>leaves at step 3; the stronger the colour, the sooner</li>
<li><svg viewBox="18 26 40 32" aria-hidden="true"><path class="ks" d="M20 42h36"/><text class="l" x="14" y="52" textLength="40" lengthAdjust="spacingAndGlyphs"> 8247</text></svg>stays: no move takes it</li>
<li><svg viewBox="18 26 40 32" aria-hidden="true"><path class="k3" d="M20 42h36"/><path class="b" d="M20 28h11l-11 11z"/><text class="l" x="14" y="52" textLength="40" lengthAdjust="spacingAndGlyphs"> 7874</text><text class="n" x="13" y="38" textLength="40" lengthAdjust="spacingAndGlyphs">     21</text></svg>blocks: stands on one that leaves before it</li>
<li><svg viewBox="18 26 40 32" aria-hidden="true"><path class="km" d="M20 42h36"/><path class="b" d="M20 28h11l-11 11z"/><text class="l" x="14" y="52" textLength="40" lengthAdjust="spacingAndGlyphs"> 7874</text><text class="n" x="13" y="38" textLength="40" lengthAdjust="spacingAndGlyphs">     21</text></svg>is relocated</li>
<li><svg viewBox="18 26 40 32" aria-hidden="true"><path class="o" d="M20 28h36v28h-36z"/><text class="l" x="14" y="52" textLength="40" lengthAdjust="spacingAndGlyphs"> 7874</text><text class="n" x="13" y="38" textLength="40" lengthAdjust="spacingAndGlyphs">     21</text></svg>to here</li>
<li><svg viewBox="18 26 40 32" aria-hidden="true"><path class="kt" d="M20 42h36"/><path class="u" d="M27 40v-8m-4 4 4-4 4 4"/><text class="l" x="14" y="52" textLength="40" lengthAdjust="spacingAndGlyphs"> 3161</text><text class="n" x="13" y="38" textLength="40" lengthAdjust="spacingAndGlyphs">      3</text></svg>is taken</li>
<li><svg viewBox="18 26 40 32" aria-hidden="true"><path class="e" d="M20 28h36v28h-36z"/></svg>is taken next</li>
</ul>
"#;
