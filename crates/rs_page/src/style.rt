//! How the page looks.
//!
//! Our choice: the colours of pictures are those of the palette, for bars and for the keys to them. Texts have a
//! contrast of at least 4.5 to what is behind them.

/// The style sheet, but for the palette.
pub(crate) const STYLE: &str =
    r#":root{color-scheme:light dark;--back:#fff;--card:#f5f7f9;--ink:#1b2126;--soft:#505a64;--line:#c3cad1;
--a:#e9f1fa;--b:#cfe1f3;--c:#accdea;--d:#84b5df;--e:#5c9ad0;--f:#2f72b3;--g:#1a568f;--h:#0b3866;--low:#10151a;--high:#fff}
@media (prefers-color-scheme:dark){:root{--back:#11161b;--card:#1a2128;--ink:#e7ecf0;--soft:#a5b0bb;--line:#3a444e;
--a:#15283a;--b:#193752;--c:#1d476c;--d:#225885;--e:#2a6a9f;--f:#6fb1e8;--g:#a3cff2;--h:#d6eafa;--low:#f2f6f9;--high:#0c1116}}
*{box-sizing:border-box}
body{margin:0 auto;padding:12px;max-width:1600px;background:var(--back);color:var(--ink);font:14px/1.45 system-ui,sans-serif}
h1{font-size:24px;margin:8px 0}
h2{font-size:18px;margin:28px 0 4px}
h3{font-size:15px;margin:16px 0 4px}
p{margin:4px 0;max-width:75em}
code{font:12px ui-monospace,monospace;overflow-wrap:anywhere}
.command{color:var(--soft)}
.wide{overflow:auto;max-width:100%;max-height:95vh}
.cards{display:grid;grid-template-columns:repeat(auto-fill,minmax(min(320px,100%),1fr));gap:10px}
figure{margin:0;padding:8px;background:var(--card);border-radius:6px;break-inside:avoid;overflow:hidden}
figcaption{overflow-wrap:anywhere}
svg{display:block}
figure svg{max-width:100%;height:auto}
svg text{font:11px system-ui,sans-serif}
svg .l{text-anchor:end}
table{border-collapse:collapse;font-variant-numeric:tabular-nums}
th,td{padding:1px 6px;border:1px solid var(--line);text-align:right;white-space:nowrap}
th{font-weight:600}
caption{text-align:left;white-space:nowrap;color:var(--soft)}
details{margin:6px 0}
summary{cursor:pointer;color:var(--soft)}
.plot{display:flex;gap:6px}
.names{max-width:30%;overflow:hidden}
.names div{height:20px;line-height:15px;font-size:12px;white-space:nowrap;overflow:hidden;text-overflow:ellipsis}
.area{flex:1;min-width:0;position:relative;padding-bottom:20px;margin-right:66px}
.area svg{width:100%;background:var(--card)}
.ticks{position:relative;height:16px;font-size:11px;color:var(--soft)}
.ticks span{position:absolute;min-height:16px;white-space:nowrap;border-left:1px solid var(--soft);padding-left:3px}
.heat thead th,.heat th[scope=row],.heat tfoot td{position:sticky;background:var(--back)}
.heat thead th{top:0;vertical-align:bottom;z-index:1}
.heat tfoot th,.heat tfoot td{bottom:0;z-index:1}
.heat th[scope=row],.heat thead th:first-child{left:0}
.heat thead th:first-child,.heat tfoot th{z-index:2}
.heat td{min-width:2.2em}
.heat tbody td{color:var(--soft)}.heat tbody td:last-child{color:var(--ink)}
.own{padding:0 4px;color:var(--soft);background:repeating-linear-gradient(45deg,var(--line) 0 1px,transparent 1px 5px)}
.heat .a{background:var(--a)}.heat .b{background:var(--b)}.heat .c{background:var(--c)}.heat .d{background:var(--d)}
.heat .e{background:var(--e)}.heat .f{background:var(--f)}.heat .g{background:var(--g)}.heat .h{background:var(--h)}
.heat [title]{color:var(--low)}.heat .f,.heat .g,.heat .h{color:var(--high)}
.tall thead th~th span{writing-mode:vertical-rl;max-height:12em;overflow:hidden}
.small{font-size:10px}
.small th,.small td{padding:0;border-width:0 1px 1px 0}
.small td{min-width:9px;height:9px;line-height:9px}
.small td:last-child{padding:0 3px}
.small tfoot span{writing-mode:vertical-rl}
@media (max-width:800px){.ticks span:nth-last-child(even){display:none}}
@media print{@page{size:A4;margin:12mm}body{padding:0;font-size:11px}.wide{overflow:visible;max-height:none}.heat{zoom:var(--print)}
.heat thead th,.heat th[scope=row],.heat tfoot td{position:static}summary{display:none}.notes summary{display:block}
.small th,.small td{border:0}
h2,h2+p,h3,h3+p{break-after:avoid}.plot,.area{break-inside:avoid}
*{-webkit-print-color-adjust:exact;print-color-adjust:exact}}
"#;
